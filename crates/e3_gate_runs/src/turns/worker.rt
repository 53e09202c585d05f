// A worker has a pass of one owner, and puts marks of this owner.
ghost use Rattle.std.specs.Prelude.{◌≡◌, ℕ, ◌≤◌, ◌++◌, [], ◌∷◌, IsTrue, MatchBool, length};
ghost use Rattle.e3_turn.specs.Passes.{IsIdle, SameOwners, last_of, owners_of, seen_by};
ghost use Rattle.e3_gate_runs.specs.Marks.{marks_of, numbered};
ghost use Rattle.e3_gate_runs.specs.Workers.{CanWork, Worked};

use crate::turns::journal::{Journal, Mark};
use e3_turn::{Pass, TurnLock};
use std::sync::Wait;

/// Puts `count` marks of its owner, once it is given a pass for it.
#[derive(Drop)]
pub struct Worker {
    pub owner: u32,
    pub count: u64,
    pub pass: Option<Pass<Journal>>,
    /// Whether it has put all its marks; else memory ran out.
    pub done: bool,
}

/// Takes the journal, adds one mark of the owner if there is memory, and puts it back.
fn put_one<R: Wait>(rt: &R, lock: &TurnLock<Journal>, pass: &mut Pass<Journal>, mark: Mark) -> bool
    requires idle { IsIdle lock.now pass.old }
    requires owner { (owners_of pass.old ≡ mark.owner ∷ []) × (mark.owner ≤ last_of pass.old) }
    requires number { mark.number ≡ length (marks_of mark.owner (seen_by pass.old)) }
    ensures idle { IsIdle lock.now pass.new }
    ensures same { SameOwners pass.old pass.new }
    ensures marks { MatchBool result (marks_of mark.owner (seen_by pass.new) ≡ marks_of mark.owner (seen_by pass.old) ++ mark ∷ []) (marks_of mark.owner (seen_by pass.new) ≡ marks_of mark.owner (seen_by pass.old)) }
{
    let mut journal = lock.take(rt, pass);
    let stands = journal.push(mark).is_ok();
    lock.put(pass, journal);
    stands
}

/// Puts marks of the owner, numbered from 0. False where memory ran out.
fn put_marks<R: Wait>(
    rt: &R,
    lock: &TurnLock<Journal>,
    pass: &mut Pass<Journal>,
    owner: u32,
    count: u64,
) -> bool
    requires idle { IsIdle lock.now pass.old }
    requires owner { (owners_of pass.old ≡ owner ∷ []) × (owner ≤ last_of pass.old) }
    requires none { marks_of owner (seen_by pass.old) ≡ [] }
    ensures idle { IsIdle lock.now pass.new }
    ensures same { SameOwners pass.old pass.new }
    ensures marks { (n : ℕ) × (marks_of owner (seen_by pass.new) ≡ numbered owner 0 n) × (IsTrue result → n ≡ count) }
{
    for number in 0..count {
        if !put_one(rt, lock, pass, Mark { owner, number }) {
            return false;
        }
    }
    true
}

/// Puts the worker's marks.
pub fn work<R: Wait>(rt: &R, lock: &TurnLock<Journal>, worker: &mut Worker)
    requires { CanWork lock.now worker.old }
    ensures { Worked lock.now worker.old worker.new }
{
    let Some(mut pass) = worker.pass.take() else {
        unreachable!()
    };
    worker.done = put_marks(rt, lock, &mut pass, worker.owner, worker.count);
    worker.pass = Some(pass);
}
