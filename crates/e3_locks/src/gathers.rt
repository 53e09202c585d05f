// What is gathered over the names of a transaction.
ghost use Rattle.std.specs.Prelude.{◌≡◌, ◌++◌, [], map, fold, IfOk};
ghost use Rattle.std.specs.List.{flat_map};
ghost use Rattle.e3_types.specs.Locks.{front};
ghost use Rattle.e3_world.specs.Items.{add_txn};
ghost use Rattle.e3_types.specs.Sorted.{IsAscending};
ghost use Rattle.e3_locks.specs.LockLists.{named};
ghost use Rattle.e3_locks.specs.Places.{without};
ghost use Rattle.e3_locks.specs.Standing.{place_in};
ghost use Rattle.e3_locks.specs.Waiting.{awaited_at};

use crate::Granted;
use crate::pairs::Pair;
use crate::place::NameLocks;
use e3_types::{List, Name, NoMemory, Txn, place_of};
use std::alloc::Global;

// Adds what a release of all that the transaction has would grant on this name.
fn push_granted(
    alloc: Global,
    t: &Txn,
    places: &[NameLocks],
    name: &Name,
    out: &mut List<Granted>,
) -> Result<(), NoMemory>
    requires { IsAscending (λ s. s.name) places.now }
    ensures { IfOk result (λ u. out.new ≡ out.old
        ++ map (named name.now) (front (without t.now (place_in name.now places.now)).held (without t.now (place_in name.now places.now)).queue)) }
{
    match place_of(places, name) {
        Ok(at) => places[at].push_granted(alloc, t, out),
        Err(_) => Ok(()),
    }
}

// What a release of all that the transaction has would grant on the names of these pairs, in their order.
pub(crate) fn granted_on(
    alloc: Global,
    t: &Txn,
    places: &[NameLocks],
    pairs: &[Pair],
) -> Result<List<Granted>, NoMemory>
    requires { IsAscending (λ s. s.name) places.now }
    ensures { IfOk result (λ out. out ≡ flat_map
        (λ p. map (named p.name) (front (without t.now (place_in p.name places.now)).held (without t.now (place_in p.name places.now)).queue)) pairs.now) }
{
    let mut out = List::new(alloc);
    for pair in pairs {
        push_granted(alloc, t, places, &pair.name, &mut out)?;
    }
    Ok(out)
}

// Adds those that the transaction waits for on this name.
fn add_awaited(
    t: &Txn,
    places: &[NameLocks],
    name: &Name,
    out: &mut Vec<Txn>,
) -> Result<(), NoMemory>
    requires { IsAscending (λ s. s.name) places.now }
    ensures { IfOk result (λ u. out.new.items ≡ fold add_txn out.old.items (awaited_at t.now (place_in name.now places.now))) }
{
    match place_of(places, name) {
        Ok(at) => places[at].add_awaited(t, out),
        Err(_) => Ok(()),
    }
}

// Those that the transaction waits for on the names of these pairs.
pub(crate) fn awaited_on(
    alloc: Global,
    t: &Txn,
    places: &[NameLocks],
    pairs: &[Pair],
) -> Result<List<Txn>, NoMemory>
    requires { IsAscending (λ s. s.name) places.now }
    ensures { IfOk result (λ out. out ≡ fold add_txn [] (flat_map (λ p. awaited_at t.now (place_in p.name places.now)) pairs.now)) }
{
    let mut out = Vec::new(alloc);
    for pair in pairs {
        add_awaited(t, places, &pair.name, &mut out)?;
    }
    Ok(List::from_vec(out))
}
