// The part of a report that tells how each site stands.
ghost use Rattle.std.specs.Prelude.{◌≡◌, ◌++◌, [], Option, OnOk, codes};
ghost use Rattle.std.specs.List.{flat_map};
ghost use Rattle.e3_report.specs.Pages.{Adds};
ghost use Rattle.e3_report.specs.lines.Records.{record_lines, row_line};
ghost use Rattle.e3_report.specs.lines.Texts.{line_end};
ghost use Rattle.e3_world.specs.Moves.{own_entries};
ghost use Rattle.e3_report.specs.Report.{inc_by, present_inc, site_heading, log_lines};

use crate::Page;
use crate::tables::table_of;
use e3_types::{Act, Entry, NoMemory, Record, Row};
use std::alloc::Global;

fn inc_by(was: Option<u32>, act: &Act) -> Option<u32>
    ensures { result ≡ inc_by was act.now }
{
    match act {
        Act::Rise { inc, .. } => Some(*inc),
        Act::RiseFall { .. } | Act::Miss | Act::Cut | Act::Fall { .. } => None,
        _ => was,
    }
}

/// The incarnation in which a site is up behind these entries, none where it is down.
pub(crate) fn present_inc(site: u64, entries: &[Entry]) -> Option<u32>
    ensures { result ≡ present_inc (own_entries site entries.now) }
{
    let mut inc = None;
    for e in entries {
        if e.owner as u64 == site {
            inc = inc_by(inc, &e.act);
        }
    }
    inc
}

/// Adds `site S up I` or `site S down`.
#[tactic(auto, unfolding(crate::specs::Report::site_heading))]
pub(crate) fn push_site_heading(page: &mut Page, site: u64, inc: Option<u32>)
    ensures { Adds page.old page.new (site_heading site inc) }
{
    match inc {
        Some(inc) => {
            page.labelled("site ", site);
            page.labelled(" up ", inc as u64);
            page.line_end();
        }
        None => {
            page.labelled("site ", site);
            page.line(" down");
        }
    }
}

/// Adds `log` and these records.
fn push_logged(page: &mut Page, log: &[Record])
    ensures { Adds page.old page.new (codes "log" ++ line_end ++ flat_map (record_lines []) log.now) }
{
    page.line("log");
    page.records(log);
}

/// Adds `rows` and these rows.
fn push_table(page: &mut Page, table: &[Row])
    ensures { Adds page.old page.new (codes "rows" ++ line_end ++ flat_map row_line table.now) }
{
    page.line("rows");
    page.rows(table);
}

/// Adds a log and its table.
#[tactic(auto, unfolding(crate::specs::Report::log_lines))]
pub(crate) fn push_log(alloc: Global, page: &mut Page, log: &[Record]) -> Result<(), NoMemory>
    ensures { OnOk result (Adds page.old page.new (log_lines log.now)) }
{
    push_logged(page, log);
    let table = table_of(alloc, log)?;
    push_table(page, table.as_slice());
    Ok(())
}
