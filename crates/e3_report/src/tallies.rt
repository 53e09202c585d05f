// Transactions that are counted once each.
ghost use Rattle.std.specs.Prelude.{◌≡◌, IfOk, OnOk};
ghost use Rattle.std.specs.List.{flat_map};
ghost use Rattle.e3_report.specs.Summary.{aborted, begun, begun_by, events_of};
ghost use Rattle.e3_report.specs.Tallies.{with_txns};

use e3_order::{TxnSet, decided};
use e3_readings::SiteRecord;
use e3_types::{Act, Dir, Entry, NoMemory, Told};
use std::alloc::Global;

/// The transactions that these events tell to be begun.
fn add_begun(begun: &mut TxnSet, events: &[Told]) -> Result<(), NoMemory>
    ensures { OnOk result (begun.new ≡ with_txns begun.old (flat_map begun_by events.now)) }
{
    for event in events {
        if let Told::Began { txn } = event {
            begun.add(txn)?;
        }
    }
    Ok(())
}

/// The transactions that an act tells to be begun.
fn add_act(begun: &mut TxnSet, act: &Act) -> Result<(), NoMemory>
    ensures { OnOk result (begun.new ≡ with_txns begun.old (flat_map begun_by (events_of act.now))) }
{
    match act {
        Act::Step { told, .. } => add_begun(begun, told.as_slice()),
        _ => Ok(()),
    }
}

/// How many transactions some log aborts.
#[tactic(auto, using(crate::proofs::Tallying::aborts_counted))]
pub(crate) fn aborted(alloc: Global, placed: &[SiteRecord]) -> Result<u64, NoMemory>
    ensures { IfOk result (λ n. n ≡ aborted placed.now) }
{
    let aborted = decided(alloc, Dir::Abort, placed)?;
    Ok(aborted.len())
}

/// How many transactions a client was told to be begun.
pub(crate) fn begun(alloc: Global, history: &[Entry]) -> Result<u64, NoMemory>
    ensures { IfOk result (λ n. n ≡ begun history.now) }
{
    let mut begun = TxnSet::new(alloc);
    for e in history {
        add_act(&mut begun, &e.act)?;
    }
    Ok(begun.len())
}
