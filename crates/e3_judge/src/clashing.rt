// Two decisions of one transaction that differ.
ghost use Rattle.std.specs.Prelude.{◌≡◌, fold, IfOk, Some, None};
ghost use Rattle.std.specs.List.{list_any};
ghost use Rattle.e3_types.specs.declared.transactions.Txn.{Txn};
ghost use Rattle.e3_world.specs.Given.{IsGiven};
ghost use Rattle.e3_world.specs.Legal.{IsLegal};
ghost use Rattle.e3_world.specs.Moves.{trail_of};
ghost use Rattle.e3_world.specs.Safe.{Agrees};
ghost use Rattle.e3_judge.specs.Clashes.{is_abort_of, clash_by, Clashes};

use crate::logs::decisions;
use e3_types::{Dir, NoMemory, Record, Scenario, Txn};
use e3_world::History;
use std::alloc::Global;

// The record is an abort of the transaction.
fn is_abort_of(t: &Txn, r: &Record) -> bool
    ensures { result ≡ is_abort_of t.now r.now }
{
    match r {
        Record::Decision { txn, dir } => match dir {
            Dir::Abort => t.is_same(txn),
            Dir::Commit => false,
        },
        _ => false,
    }
}

// An abort of the transaction is among the records.
fn is_aborted(t: &Txn, all: &[Record]) -> bool
    ensures { result ≡ list_any (is_abort_of t.now) all.now }
{
    all.iter().any(|r| is_abort_of(t, r))
}

// The first transaction that is committed by one of these records and aborted by one of all, with one more record.
fn clash_by(all: &[Record], was: Option<Txn>, r: &Record) -> Option<Txn>
    ensures { result ≡ clash_by all.now was r.now }
{
    match was {
        Some(t) => Some(t),
        None => match r {
            Record::Decision { txn, dir } => match dir {
                Dir::Commit if is_aborted(txn, all) => Some(*txn),
                _ => None,
            },
            _ => None,
        },
    }
}

// The first transaction that is committed by one of these records and aborted by another.
fn clash_in(all: &[Record]) -> Option<Txn>
    ensures { result ≡ fold (clash_by all.now) None all.now }
{
    all.iter().fold(None, |was, r| clash_by(all, was, r))
}

/// A transaction that some log commits and some log aborts; none where no two decisions of a transaction differ. It reads
/// each log once, takes any history, and asks nothing of votes. Want of memory is the only error.
#[tactic(auto, using(crate::proofs::Finding::none_agrees, crate::proofs::Finding::some_clashes, crate::proofs::Finding::legal_has_none))]
pub fn clash(alloc: Global, scenario: &Scenario, history: &History) -> Result<Option<Txn>, NoMemory>
    ensures agrees { result ≡ Ok None → Agrees (trail_of scenario.now history.now.entries) }
    ensures clashes { (t : Txn) → result ≡ Ok (Some t) → Clashes scenario.now history.now.entries t }
    ensures legal { IsGiven scenario.now → IsLegal scenario.now history.now.entries → IfOk result (λ found. found ≡ None) }
{
    let all = decisions(alloc, history.as_slice())?;
    Ok(clash_in(all.as_slice()))
}
