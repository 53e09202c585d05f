// The committed transactions, in the order of their last votes.
ghost use Rattle.std.specs.Prelude.{◌≡◌, ◌++◌, IfOk, OnOk};
ghost use Rattle.e3_world.specs.Serial.{commit_order};
ghost use Rattle.e3_order.specs.Orders.{with_vote, last_vote, backward};

use crate::decisions::decided;
use crate::keys::TxnSet;
use e3_readings::SiteRecord;
use e3_types::{Dir, List, NoMemory, Record, Txn};
use std::alloc::Global;

// One more record before those that were seen. The transaction of a vote is found where it is committed and this is its
// last vote.
fn note_vote(
    committed: &TxnSet,
    later: &mut TxnSet,
    found: &mut List<Txn>,
    r: &Record,
) -> Result<(), NoMemory>
    ensures found { OnOk result (found.new ≡ found.old ++ last_vote committed.now later.old r.now) }
    ensures later { OnOk result (later.new ≡ with_vote r.now later.old) }
{
    match r {
        Record::Vote { txn, .. } => {
            if committed.has(txn) && !later.has(txn) {
                found.push(*txn)?;
            }
            later.add(txn)
        }
        _ => Ok(()),
    }
}

// The committed transactions by their last votes, from the last to the first.
fn backward(alloc: Global, committed: &TxnSet, placed: &[SiteRecord]) -> Result<List<Txn>, NoMemory>
    ensures { IfOk result (λ found. found ≡ backward committed.now placed.now) }
{
    let mut later = TxnSet::new(alloc);
    let mut found = List::new(alloc);
    for at in (0..placed.len()).rev() {
        note_vote(committed, &mut later, &mut found, placed[at].entered())?;
    }
    Ok(found)
}

/// The transactions that some of these records commit and some vote for, each at its last vote: the records of all logs, in
/// the order in which they were entered. Want of memory is the only error.
#[tactic(auto, using(crate::proofs::Ordering::order_is_reversed))]
pub fn commit_order(alloc: Global, placed: &[SiteRecord]) -> Result<List<Txn>, NoMemory>
    ensures { IfOk result (λ txns. txns ≡ commit_order placed.now) }
{
    let committed = decided(alloc, Dir::Commit, placed)?;
    let mut found = backward(alloc, &committed, placed)?.into_vec();
    found.reverse();
    Ok(List::from_vec(found))
}
