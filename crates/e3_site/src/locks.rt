// Whether a lock is free behind a log, by its records alone.
ghost use Rattle.std.specs.Prelude.{◌≡◌};
ghost use Rattle.std.specs.List.{list_any};
ghost use Rattle.e3_types.specs.Locks.{opposes};
ghost use Rattle.e3_world.specs.Logs.{lock_on, vote_locks};
ghost use Rattle.e3_world.specs.Orderly.{is_free};

use e3_readings::{is_undecided, key_of, mode_of};
use e3_types::{Lock, Name, NumOp, Op, Record, Txn};

// The lock of the operation is on this name and conflicts with the wanted one of another transaction.
fn op_opposes(name: &Name, wanted: &Lock, t: &Txn, op: &Op) -> bool
    ensures { result ≡ list_any (opposes wanted.now) (lock_on name.now t.now op.now) }
{
    let lock = Lock {
        txn: *t,
        mode: mode_of(op),
    };
    name.is_same(&key_of(op).name) && wanted.opposes(&lock)
}

// One of the locks of the operations is on this name and conflicts with the wanted one of another transaction.
fn ops_oppose(name: &Name, wanted: &Lock, t: &Txn, ops: &[NumOp]) -> bool
    ensures { result ≡ list_any (λ o. list_any (opposes wanted.now) (lock_on name.now t.now o.op)) ops.now }
{
    ops.iter().any(|o| op_opposes(name, wanted, t, &o.op))
}

// The record is the vote of an undecided transaction, one of whose locks conflicts with the wanted one.
#[tactic(auto, using(crate::proofs::Freedom::vote_any))]
fn vote_opposes(name: &Name, wanted: &Lock, before: &[Record], r: &Record) -> bool
    ensures { result ≡ list_any (opposes wanted.now) (vote_locks name.now before.now r.now) }
{
    match r {
        Record::Vote { txn, ops } => {
            is_undecided(txn, before) && ops_oppose(name, wanted, txn, ops.as_slice())
        }
        _ => false,
    }
}

// A vote of an undecided transaction has a lock that conflicts with the wanted one.
fn is_opposed(name: &Name, wanted: &Lock, before: &[Record]) -> bool
    ensures { result ≡ list_any (λ r. list_any (opposes wanted.now) (vote_locks name.now before.now r)) before.now }
{
    before.iter().any(|r| vote_opposes(name, wanted, before, r))
}

/// The lock of the operation conflicts with none of the votes of other transactions that are undecided in this log. It goes
/// over all pairs of its records.
pub(crate) fn is_free_among(t: &Txn, before: &[Record], o: &NumOp) -> bool
    ensures { result ≡ is_free t.now before.now o.now }
{
    let wanted = Lock {
        txn: *t,
        mode: mode_of(&o.op),
    };
    !is_opposed(&key_of(&o.op).name, &wanted, before)
}
