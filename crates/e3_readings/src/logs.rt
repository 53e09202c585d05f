// What a log says of a transaction. A log is a list of records, the oldest first.
ghost use Rattle.std.specs.Prelude.{◌≡◌, ◌++◌, IfOk, OnErr, fold};
ghost use Rattle.e3_readings.specs.States.{state_by};
ghost use Rattle.e3_world.specs.Logs.{last_elected_by, last_elected, last_attempt_by, last_attempt, decision_by, decision, attempted_by, attempted, is_vote, has_voted, state_of, is_undecided, logged_inc_by, logged_inc, voted_ops, key_of, mode_of, lock_on, vote_locks, voted_locks};

use e3_types::{Dir, Key, List, Lock, Mode, Name, NoMemory, NumOp, Op, Record, State, Txn};
use std::alloc::Global;
use std::cmp::max;

/// Last_Elected of the transaction behind one more record of a log.
pub fn last_elected_by(t: &Txn, n: u32, r: &Record) -> u32
    ensures { result ≡ last_elected_by t.now n r.now }
{
    match r {
        Record::Join { txn, n: m } if t.is_same(txn) => max(n, *m),
        _ => n,
    }
}

/// Last_Elected of the transaction behind these records, where it was n before them.
pub fn last_elected_behind(t: &Txn, n: u32, records: &[Record]) -> u32
    ensures { result ≡ fold (last_elected_by t.now) n records.now }
{
    records.iter().fold(n, |m, r| last_elected_by(t, m, r))
}

/// Last_Elected: the greatest number of an election of the transaction that the site joined, 1 if it joined none.
pub fn last_elected(t: &Txn, log: &[Record]) -> u32
    ensures { result ≡ last_elected t.now log.now }
{
    last_elected_behind(t, 1, log)
}

/// Last_Attempt of the transaction behind one more record of a log.
pub fn last_attempt_by(t: &Txn, n: u32, r: &Record) -> u32
    ensures { result ≡ last_attempt_by t.now n r.now }
{
    match r {
        Record::Attempt { txn, n: m, .. } if t.is_same(txn) => max(n, *m),
        _ => n,
    }
}

/// Last_Attempt of the transaction behind these records, where it was n before them.
pub fn last_attempt_behind(t: &Txn, n: u32, records: &[Record]) -> u32
    ensures { result ≡ fold (last_attempt_by t.now) n records.now }
{
    records.iter().fold(n, |m, r| last_attempt_by(t, m, r))
}

/// Last_Attempt: the greatest number of an attempt of the transaction, 0 if there is none.
pub fn last_attempt(t: &Txn, log: &[Record]) -> u32
    ensures { result ≡ last_attempt t.now log.now }
{
    last_attempt_behind(t, 0, log)
}

/// The decision of the transaction behind one more record of a log.
pub fn decision_by(t: &Txn, was: Option<Dir>, r: &Record) -> Option<Dir>
    ensures { result ≡ decision_by t.now was r.now }
{
    match r {
        Record::Decision { txn, dir } if t.is_same(txn) => Some(*dir),
        _ => was,
    }
}

/// The decision of the transaction behind these records, where this was it before them.
pub fn decision_behind(t: &Txn, was: Option<Dir>, records: &[Record]) -> Option<Dir>
    ensures { result ≡ fold (decision_by t.now) was records.now }
{
    records.iter().fold(was, |d, r| decision_by(t, d, r))
}

/// The decision of the transaction, if there is one.
pub fn decision(t: &Txn, log: &[Record]) -> Option<Dir>
    ensures { result ≡ decision t.now log.now }
{
    decision_behind(t, None, log)
}

/// The direction of the last attempt of the transaction behind one more record of a log.
pub fn attempted_by(t: &Txn, was: Option<Dir>, r: &Record) -> Option<Dir>
    ensures { result ≡ attempted_by t.now was r.now }
{
    match r {
        Record::Attempt { txn, dir, .. } if t.is_same(txn) => Some(*dir),
        _ => was,
    }
}

/// The direction of the last attempt of the transaction behind these records, where this was it before them.
pub fn attempted_behind(t: &Txn, was: Option<Dir>, records: &[Record]) -> Option<Dir>
    ensures { result ≡ fold (attempted_by t.now) was records.now }
{
    records.iter().fold(was, |d, r| attempted_by(t, d, r))
}

/// The direction of the last attempt of the transaction, if there is one.
pub fn attempted(t: &Txn, log: &[Record]) -> Option<Dir>
    ensures { result ≡ attempted t.now log.now }
{
    attempted_behind(t, None, log)
}

/// The record is a vote of the transaction.
pub fn is_vote(t: &Txn, r: &Record) -> bool
    ensures { result ≡ is_vote t.now r.now }
{
    match r {
        Record::Vote { txn, .. } => t.is_same(txn),
        _ => false,
    }
}

/// The log has a vote of the transaction.
pub fn has_voted(t: &Txn, log: &[Record]) -> bool
    ensures { result ≡ has_voted t.now log.now }
{
    log.iter().any(|r| is_vote(t, r))
}

/// The state of a transaction by its decision, else by the direction of its last attempt, else by whether it was voted on.
pub fn state_by(decision: Option<Dir>, attempted: Option<Dir>, voted: bool) -> State
    ensures { result ≡ state_by decision attempted voted }
{
    match (decision, attempted) {
        (Some(Dir::Commit), _) => State::C,
        (Some(Dir::Abort), _) => State::A,
        (None, Some(Dir::Commit)) => State::Pc,
        (None, Some(Dir::Abort)) => State::Pa,
        (None, None) => { if voted { State::W } else { State::Q } }
    }
}

/// The state of the transaction: by its decision, else by its last attempt, else by its vote.
#[tactic(auto, using(crate::proofs::States::state_is))]
pub fn state_of(t: &Txn, log: &[Record]) -> State
    ensures { result ≡ state_of t.now log.now }
{
    state_by(decision(t, log), attempted(t, log), has_voted(t, log))
}

/// The log has no decision of the transaction.
pub fn is_undecided(t: &Txn, log: &[Record]) -> bool
    ensures { result ≡ is_undecided t.now log.now }
{
    decision(t, log).is_none()
}

fn logged_inc_by(n: u32, r: &Record) -> u32
    ensures { result ≡ logged_inc_by n r.now }
{
    match r {
        Record::Inc { inc } => *inc,
        _ => n,
    }
}

/// The incarnation that the log says last, 0 if it says none.
pub fn logged_inc(log: &[Record]) -> u32
    ensures { result ≡ logged_inc log.now }
{
    log.iter().fold(0, |n, r| logged_inc_by(n, r))
}

/// The operations of all votes of the transaction, in the order of the log.
pub fn voted_ops(alloc: Global, t: &Txn, log: &[Record]) -> Result<List<NumOp>, NoMemory>
    ensures { IfOk result (λ ops. ops ≡ voted_ops t.now log.now) }
{
    let mut out = List::new(alloc);
    for r in log {
        if let Record::Vote { txn, ops } = r {
            if t.is_same(txn) {
                out.add_copies(alloc, ops.as_slice())?;
            }
        }
    }
    Ok(out)
}

/// The key that an operation reads or writes.
pub fn key_of(op: &Op) -> &Key
    ensures { result.now ≡ key_of op.now }
{
    match op {
        Op::Read(key) => key,
        Op::Write(key, _) => key,
    }
}

/// The mode of the lock that an operation takes: a read's is shared, a write's is exclusive.
pub fn mode_of(op: &Op) -> Mode
    ensures { result ≡ mode_of op.now }
{
    match op {
        Op::Read(_) => Mode::Shared,
        Op::Write(_, _) => Mode::Exclusive,
    }
}

/// Adds the lock of an operation, where it is on this name.
pub fn lock_on(name: &Name, t: &Txn, op: &Op, out: &mut List<Lock>) -> Result<(), NoMemory>
    ensures ok { IfOk result (λ u. out.new ≡ out.old ++ lock_on name.now t.now op.now) }
    ensures err { OnErr result (out.new ≡ out.old) }
{
    if name.is_same(&key_of(op).name) {
        out.push(Lock {
            txn: *t,
            mode: mode_of(op),
        })?;
    }
    Ok(())
}

fn vote_locks(name: &Name, log: &[Record], r: &Record, out: &mut List<Lock>) -> Result<(), NoMemory>
    ensures { IfOk result (λ u. out.new ≡ out.old ++ vote_locks name.now log.now r.now) }
{
    if let Record::Vote { txn, ops } = r {
        if is_undecided(txn, log) {
            for o in ops.as_slice() {
                lock_on(name, txn, &o.op, out)?;
            }
        }
    }
    Ok(())
}

/// The locks on a name of the votes of undecided transactions, in the order of the log.
pub fn voted_locks(alloc: Global, name: &Name, log: &[Record]) -> Result<List<Lock>, NoMemory>
    ensures { IfOk result (λ locks. locks ≡ voted_locks name.now log.now) }
{
    let mut out = List::new(alloc);
    for r in log {
        vote_locks(name, log, r, &mut out)?;
    }
    Ok(out)
}
