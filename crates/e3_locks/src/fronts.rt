// Who gets a lock next, over locks with their names.
ghost use Rattle.std.specs.Prelude.{◌≡◌, ◌++◌, ◌∷◌, [], IfOk, MatchOption, map, ℕ, List as Items};
ghost use Rattle.std.specs.List.{list_any};
ghost use Rattle.e3_types.specs.Locks.{front};
ghost use Rattle.e3_types.specs.Same.{same_numbers};
ghost use Rattle.e3_locks.specs.Places.{others_of};
ghost use Rattle.e3_locks.specs.LockLists.{on, named, names_of, grants_on, grants_after};
ghost use Rattle.e3_locks.specs.Fronts.{IsFree};

use crate::granted::is_opposed;
use crate::{Granted, add_name, front};
use e3_types::{List, Lock, Name, NoMemory, Txn};
use std::alloc::Global;

// One of these is on the name.
fn is_named(name: &Name, locks: &[Granted]) -> bool
    ensures { result ≡ list_any (λ g. same_numbers name.now g.name) locks.now }
{
    locks.iter().any(|g| g.is_on(name))
}

// The first request of the queue that is the first on its name and conflicts with no holder.
pub(crate) fn first_free(held: &[Granted], queue: &[Granted]) -> Option<usize>
    ensures { MatchOption result ((n : Items ℕ) → front (on n held.now) (on n queue.now) ≡ []) (λ at. IsFree held.now queue.now at) }
{
    for (k, next) in queue.iter().enumerate() {
        if !is_named(&next.name, &queue[..k]) && !is_opposed(&next.lock(), &next.name, held) {
            return Some(k);
        }
    }
    None
}

// The locks on the name that are not the transaction's.
fn others_on(alloc: Global, t: &Txn, name: &Name, locks: &[Granted]) -> Result<List<Lock>, NoMemory>
    ensures { IfOk result (λ out. out ≡ others_of t.now (on name.now locks.now)) }
{
    let mut out = List::new(alloc);
    for g in locks {
        if g.is_on(name) && !t.is_same(&g.txn) {
            out.push(g.lock())?;
        }
    }
    Ok(out)
}

// Adds these locks, on the name.
pub(crate) fn push_named(
    name: &Name,
    locks: &[Lock],
    out: &mut List<Granted>,
) -> Result<(), NoMemory>
    ensures { IfOk result (λ u. out.new ≡ out.old ++ map (named name.now) locks.now) }
{
    for lock in locks {
        out.push(Granted::of(&lock.txn, name, lock.mode))?;
    }
    Ok(())
}

// Adds what the front of a name's queue gets, without the transaction's locks and requests.
fn push_front(
    alloc: Global,
    t: &Txn,
    name: &Name,
    held: &[Granted],
    queue: &[Granted],
    out: &mut List<Granted>,
) -> Result<(), NoMemory>
    ensures { IfOk result (λ u. out.new ≡ out.old ++ grants_on t.now (record { held = held.now; queue = queue.now; room = 0 }) name.now) }
{
    let holders = others_on(alloc, t, name, held)?;
    let waiters = others_on(alloc, t, name, queue)?;
    let granted = front(alloc, holders.as_slice(), waiters.as_slice())?;
    push_named(name, granted.as_slice(), out)
}

// What a release of all that the transaction has would grant.
pub(crate) fn all_fronts(
    alloc: Global,
    t: &Txn,
    held: &[Granted],
    queue: &[Granted],
) -> Result<List<Granted>, NoMemory>
    ensures { IfOk result (λ out. out ≡ grants_after t.now (record { held = held.now; queue = queue.now; room = 0 })) }
{
    let names = names_of(alloc, queue)?;
    let mut out = List::new(alloc);
    for name in names.as_slice() {
        push_front(alloc, t, name, held, queue, &mut out)?;
    }
    Ok(out)
}

// The names of these, each once, in byte order.
pub(crate) fn names_of(alloc: Global, locks: &[Granted]) -> Result<List<Name>, NoMemory>
    ensures { IfOk result (λ out. out ≡ names_of locks.now) }
{
    let mut names = List::new(alloc);
    for g in locks {
        names = add_name(alloc, names.as_slice(), &g.name)?;
    }
    Ok(names)
}
