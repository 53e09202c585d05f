// A list of calls on a table of locks.
ghost use Rattle.std.specs.Prelude.{◌≡◌, ◌<◌, ◌++◌, ℕ, IfOk, OnOk, OnErr, length, take, List as Items};
ghost use Rattle.e3_locks.specs.LockLists.{place};
ghost use Rattle.e3_locks.specs.Replays.{after_call, after_calls, answer_to, answers_to};

use crate::Locks;
use e3_types::{Grant, List, Mode, Name, NoMemory, Txn};
use std::alloc::Global;

/// A call on a table of locks.
#[derive(Drop)]
pub enum LockCall {
    Request { txn: Txn, name: Name, mode: Mode },
    Release { txn: Txn },
}

// Makes one call, and adds what it is answered.
fn make_call<L: Locks>(
    table: &mut L,
    call: &LockCall,
    grants: &mut Vec<Grant>,
) -> Result<(), NoMemory>
    ensures grants { OnOk result (grants.new.items ≡ grants.old.items ++ answer_to (λ n. place n (L.lists table.old)) call.now) }
    ensures places { OnOk result ((n : Items ℕ) → place n (L.lists table.new) ≡ after_call (λ m. place m (L.lists table.old)) call.now n) }
    ensures err { OnErr result ((n : Items ℕ) → place n (L.lists table.new) ≡ place n (L.lists table.old)) }
{
    match call {
        LockCall::Request { txn, name, mode } => {
            match grants.reserve(1) {
                Ok(()) => {}
                Err(_) => return Err(NoMemory),
            }
            match table.request(*txn, name, *mode) {
                Ok(grant) => {
                    grants.push_reserved(grant);
                    Ok(())
                }
                Err(_) => Err(NoMemory),
            }
        }
        LockCall::Release { txn } => {
            table.release(*txn);
            Ok(())
        }
    }
}

/// Makes these calls on the table, one after the other, and gives what each request was answered: just what the lock rule
/// gives. Want of memory is the only error; the table is then as the calls before the one that was refused left it.
pub fn replay_locks<L: Locks>(
    alloc: Global,
    table: &mut L,
    calls: &[LockCall],
) -> Result<List<Grant>, NoMemory>
    ensures ok { IfOk result (λ grants. grants ≡ answers_to (λ n. place n (L.lists table.old)) calls.now) }
    ensures places { OnOk result ((n : Items ℕ) → place n (L.lists table.new)
        ≡ after_calls (λ m. place m (L.lists table.old)) calls.now n) }
    ensures err { OnErr result ((k : ℕ) × (k < length calls.now) × ((n : Items ℕ) → place n (L.lists table.new)
        ≡ after_calls (λ m. place m (L.lists table.old)) (take k calls.now) n)) }
{
    let mut grants = Vec::new(alloc);
    for call in calls {
        match make_call(table, call, &mut grants) {
            Ok(()) => {}
            Err(_) => return Err(NoMemory),
        }
    }
    Ok(List::from_vec(grants))
}
