// The summary of a drill.
ghost use Rattle.std.specs.Prelude.{◌≡◌, ◌++◌, ◌+◌, ◌-◌, IfOk, OnOk, codes};
ghost use Rattle.e3_report.specs.Pages.{Adds};
ghost use Rattle.e3_report.specs.Summary.{is_cut, is_fall, is_rise, is_kind, count_of, committed, aborted, begun, count_line, summary_with, summary_of};

use crate::Page;
use crate::logs::walk_of;
use crate::tallies::{aborted, begun};
use e3_order::commit_order;
use e3_readings::SiteRecord;
use e3_types::{Act, Entry, List, NoMemory, Scenario};
use e3_world::History;
use std::alloc::Global;

/// The kinds of entries that are counted.
#[derive(Clone, Copy)]
pub(crate) enum Kind {
    Step,
    Cut,
    Fall,
    Rise,
}

fn is_kind(kind: Kind, act: &Act) -> bool
    ensures { result ≡ is_kind kind act.now }
{
    match kind {
        Kind::Step => matches!(act, Act::Line { .. }),
        Kind::Cut => matches!(act, Act::Cut),
        Kind::Fall => matches!(act, Act::Fall { .. }),
        Kind::Rise => matches!(act, Act::Rise { .. }),
    }
}

/// How many entries of a kind there are.
fn count_of(kind: Kind, history: &[Entry]) -> u64
    ensures { result ≡ count_of (is_kind kind) history.now }
{
    history.iter().filter(|e| is_kind(kind, &e.act)).count() as u64
}

/// How many transactions are committed, are aborted, and were begun.
#[derive(Clone, Copy)]
struct Counted {
    committed: u64,
    aborted: u64,
    begun: u64,
}

/// What is counted of transactions, where these are the records of all logs.
fn count_all(alloc: Global, placed: &[SiteRecord], history: &[Entry]) -> Result<Counted, NoMemory>
    ensures committed { IfOk result (λ c. c.committed ≡ committed placed.now) }
    ensures aborted { IfOk result (λ c. c.aborted ≡ aborted placed.now) }
    ensures begun { IfOk result (λ c. c.begun ≡ begun history.now) }
{
    Ok(Counted {
        committed: commit_order(alloc, placed)?.len(),
        aborted: aborted(alloc, placed)?,
        begun: begun(alloc, history)?,
    })
}

/// How many transactions were begun and are neither committed nor aborted: none where those are more.
fn undecided(counted: Counted) -> u64
    ensures { result ≡ counted.begun - (counted.committed + counted.aborted) }
{
    counted
        .begun
        .saturating_sub(counted.committed)
        .saturating_sub(counted.aborted)
}

#[tactic(auto, unfolding(crate::specs::Summary::count_line))]
fn push_count(page: &mut Page, word: &str, number: u64)
    ensures { Adds page.old page.new (count_line word.now number) }
{
    page.text(word);
    page.labelled(" ", number);
    page.line_end();
}

/// Adds how many entries of a kind there are, behind a word.
fn push_kind(page: &mut Page, word: &str, kind: Kind, history: &[Entry])
    ensures { Adds page.old page.new (count_line word.now (count_of (is_kind kind) history.now)) }
{
    push_count(page, word, count_of(kind, history));
}

/// Adds how many transactions are committed, are aborted, and were begun and are neither.
fn push_transactions(page: &mut Page, counted: Counted)
    ensures { Adds page.old page.new (count_line (codes "committed") counted.committed ++ count_line (codes "aborted") counted.aborted
        ++ count_line (codes "undecided") (counted.begun - (counted.committed + counted.aborted))) }
{
    push_count(page, "committed", counted.committed);
    push_count(page, "aborted", counted.aborted);
    push_count(page, "undecided", undecided(counted));
}

/// Adds how many cuts, falls and rises there were.
fn push_faults(page: &mut Page, history: &[Entry])
    ensures { Adds page.old page.new (count_line (codes "cuts") (count_of is_cut history.now)
        ++ count_line (codes "falls") (count_of is_fall history.now) ++ count_line (codes "rises") (count_of is_rise history.now)) }
{
    push_kind(page, "cuts", Kind::Cut, history);
    push_kind(page, "falls", Kind::Fall, history);
    push_kind(page, "rises", Kind::Rise, history);
}

/// Adds the summary, where this is what is counted of transactions.
fn push_summary(page: &mut Page, n: u32, counted: Counted, history: &[Entry])
    ensures { Adds page.old page.new (summary_with n counted.committed counted.aborted counted.begun history.now) }
{
    push_count(page, "drill", n as u64);
    push_kind(page, "steps", Kind::Step, history);
    push_transactions(page, counted);
    push_faults(page, history);
    page.line("end");
}

/// Adds the summary of a drill.
fn push_drill(
    alloc: Global,
    page: &mut Page,
    n: u32,
    scenario: &Scenario,
    history: &[Entry],
) -> Result<(), NoMemory>
    ensures { OnOk result (Adds page.old page.new (summary_of n scenario.now history.now)) }
{
    let walk = walk_of(alloc, scenario, history)?;
    let counted = count_all(alloc, walk.placed(), history)?;
    push_summary(page, n, counted, history);
    Ok(())
}

/// The summary of the drill with this number, over its scenario and history: a line for the number, then one for each count.
/// The history need not be legal. Want of memory is the only error.
pub fn summary(
    alloc: Global,
    n: u32,
    scenario: &Scenario,
    history: &History,
) -> Result<List<u8>, NoMemory>
    ensures { IfOk result (λ text. text ≡ summary_of n scenario.now history.now.entries) }
{
    let mut page = Page::new(alloc);
    push_drill(alloc, &mut page, n, scenario, history.as_slice())?;
    page.done()
}
