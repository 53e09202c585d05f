// The lines of the committed transactions.
ghost use Rattle.std.specs.Prelude.{◌++◌, OnOk, codes};
ghost use Rattle.std.specs.List.{flat_map};
ghost use Rattle.e3_report.specs.Pages.{Adds};
ghost use Rattle.e3_report.specs.lines.Texts.{line_end};
ghost use Rattle.e3_report.specs.Report.{txn_line, order_lines};

use crate::Page;
use e3_order::commit_order;
use e3_readings::SiteRecord;
use e3_types::{NoMemory, Txn};
use std::alloc::Global;

#[tactic(auto, unfolding(crate::specs::Report::txn_line))]
fn push_txn_line(page: &mut Page, txn: &Txn)
    ensures { Adds page.old page.new (txn_line txn.now) }
{
    page.txn(txn);
    page.line_end();
}

fn push_txns(page: &mut Page, txns: &[Txn])
    ensures { Adds page.old page.new (flat_map txn_line txns.now) }
{
    for txn in txns {
        push_txn_line(page, txn);
    }
}

/// Adds `order` and these transactions.
fn push_ordered(page: &mut Page, txns: &[Txn])
    ensures { Adds page.old page.new (codes "order" ++ line_end ++ flat_map txn_line txns.now) }
{
    page.line("order");
    push_txns(page, txns);
}

/// Adds the committed transactions.
#[tactic(auto, unfolding(crate::specs::Report::order_lines))]
pub(crate) fn push_order(
    alloc: Global,
    page: &mut Page,
    placed: &[SiteRecord],
) -> Result<(), NoMemory>
    ensures { OnOk result (Adds page.old page.new (order_lines placed.now)) }
{
    let txns = commit_order(alloc, placed)?;
    push_ordered(page, txns.as_slice());
    Ok(())
}
