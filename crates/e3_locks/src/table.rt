// The locks of a table, name by name.
ghost use Rattle.std.specs.Prelude.{◌≡◌, ◌≤◌, ◌-◌, ◌∷◌, [], min, map, fold, ℕ, List as Items, IfOk, OnOk, OnErr, vec_len, vec_capacity};
ghost use Rattle.std.specs.List.{flat_map};
ghost use Rattle.e3_types.specs.Locks.{front};
ghost use Rattle.e3_world.specs.Items.{add_txn};
ghost use Rattle.e3_locks.specs.LockLists.{place, named};
ghost use Rattle.e3_locks.specs.Places.{would, requested, without};
ghost use Rattle.e3_locks.specs.Replays.{with_request};
ghost use Rattle.e3_locks.specs.Standing.{IsTable, count_at, place_in};
ghost use Rattle.e3_locks.specs.Waiting.{awaited_at};

use crate::gathers::{awaited_on, granted_on};
use crate::pairs::{Pair, add_put, pairs_of};
use crate::place::NameLocks;
use crate::releases::release_all;
use crate::{Granted, Locks};
use e3_types::{Grant, List, Lock, Mode, Name, NoMemory, Txn, place_of};
use e3_world::found_by_bits;
use std::alloc::Global;
use std::marker::Model;

/// A table of locks with one place for each name that was ever locked, in byte order of the names. A request, and the
/// question after one, look at the locks of one name; a release at those of the names that the transaction has, which are
/// found by halving too.
#[derive(Drop)]
pub struct LockTable {
    places: Vec<NameLocks>,
    // each transaction with the names on which it has a lock or waits, in the order of transactions
    pairs: Vec<Pair>,
    // room into which the locks of any one name can move
    spare: Vec<Lock>,
    // no name has more locks
    most: usize,
    alloc: Global,
}

impl Model for LockTable {
    ghost use Rattle.std.specs.Prelude.{◌≡◌, ◌-◌, [], min, vec_len, vec_capacity};
    ghost use Rattle.e3_locks.specs.LockLists.{LockLists};
    ghost use Rattle.e3_locks.specs.Pairs.{IsIndex};
    ghost use Rattle.e3_locks.specs.Standing.{IsTable, all_held, all_queued};

    ghost Value = { LockLists };

    ghost view = { λ a. record {
      held = all_held a.places.items;
      queue = all_queued a.places.items;
      room = min (min (vec_capacity a.places - vec_len a.places) (vec_capacity a.spare - a.most)) (vec_capacity a.pairs - vec_len a.pairs);
    } };

    ghost invariant = { λ a. IsTable a.places.items a.most × (a.spare.items ≡ []) × IsIndex a.places.items a.pairs.items };
}

// A request at a name.
fn request_here(
    place: &mut NameLocks,
    wanted: &Lock,
    spare: &mut Vec<Lock>,
) -> Result<Grant, NoMemory>
    requires { spare.old.items ≡ [] }
    ensures grant { IfOk result (λ g. g ≡ would wanted.now place.old.place) }
    ensures ok { IfOk result (λ g. place.new ≡ record { name = place.old.name; place = requested wanted.now g place.old.place }) }
    ensures err { OnErr result (place.new ≡ place.old) }
    ensures spare { spare.new.items ≡ [] }
    ensures full { OnErr result (vec_capacity spare.old ≤ count_at place.old.place) }
{
    let grant = place.would(wanted);
    match place.put(wanted, &grant, spare) {
        Ok(()) => Ok(grant),
        Err(_) => Err(NoMemory),
    }
}

// A request on a name. A name that has no place yet gets it.
fn request_on(
    alloc: Global,
    places: &mut Vec<NameLocks>,
    name: &Name,
    wanted: &Lock,
    spare: &mut Vec<Lock>,
    most: &mut usize,
) -> Result<Grant, NoMemory>
    requires table { IsTable places.old.items most.old }
    requires spare { spare.old.items ≡ [] }
    ensures grant { IfOk result (λ g. g ≡ would wanted.now (place_in name.now places.old.items)) }
    ensures ok { IfOk result (λ g. (n : Items ℕ) → place_in n places.new.items
        ≡ with_request name.now wanted.now g (λ k. place_in k places.old.items) n) }
    ensures err { OnErr result (places.new.items ≡ places.old.items) }
    ensures table { IsTable places.new.items most.new }
    ensures spare { spare.new.items ≡ [] }
    ensures full { OnErr result (min (vec_capacity places.old - vec_len places.old) (vec_capacity spare.old - most.old) ≡ 0) }
{
    match place_of(places, name) {
        Ok(at) => {
            let grant = request_here(&mut places[at], wanted, spare)?;
            *most = (*most).max(places[at].count());
            Ok(grant)
        }
        Err(at) => {
            let first = NameLocks::first(alloc, name, wanted, spare)?;
            match places.insert(at, first) {
                Ok(()) => {}
                Err(_) => return Err(NoMemory),
            }
            *most = (*most).max(1);
            Ok(Grant::Held)
        }
    }
}

impl LockTable {
    /// A table without locks, with room for one request. Want of memory is the only error.
    pub fn new(alloc: Global) -> Result<LockTable, NoMemory>
        ensures places { IfOk result (λ table. (n : Items ℕ) → place n table ≡ record { held = []; queue = [] }) }
        ensures room { IfOk result (λ table. 1 ≤ table.room) }
    {
        let mut table = LockTable {
            places: Vec::new(alloc),
            pairs: Vec::new(alloc),
            spare: Vec::new(alloc),
            most: 0,
            alloc,
        };
        table.reserve()?;
        Ok(table)
    }
}

impl Locks for LockTable {
    ghost lists = { λ a. a };

    fn would(&self, txn: Txn, name: &Name, mode: Mode) -> Grant {
        match place_of(&self.places, name) {
            Ok(at) => self.places[at].would(&Lock { txn, mode }),
            Err(_) => Grant::Held,
        }
    }

    fn request(&mut self, txn: Txn, name: &Name, mode: Mode) -> Result<Grant, NoMemory> {
        match self.pairs.reserve(1) {
            Ok(()) => {}
            Err(_) => return Err(NoMemory),
        }
        found_by_bits(&txn);
        let wanted = Lock { txn, mode };
        let grant = request_on(
            self.alloc,
            &mut self.places,
            name,
            &wanted,
            &mut self.spare,
            &mut self.most,
        )?;
        add_put(&mut self.pairs, &grant, &txn, name);
        Ok(grant)
    }

    fn reserve(&mut self) -> Result<(), NoMemory> {
        match self.places.reserve(1) {
            Ok(()) => {}
            Err(_) => return Err(NoMemory),
        }
        match self.pairs.reserve(1) {
            Ok(()) => {}
            Err(_) => return Err(NoMemory),
        }
        match self.spare.reserve(self.most + 1) {
            Ok(()) => Ok(()),
            Err(_) => Err(NoMemory),
        }
    }

    fn grants_after(&self, txn: Txn) -> Result<List<Granted>, NoMemory> {
        granted_on(self.alloc, &txn, &self.places, pairs_of(&self.pairs, &txn))
    }

    fn release(&mut self, txn: Txn) {
        release_all(&mut self.places, &mut self.pairs, &txn);
    }

    fn holds(&self, txn: Txn, name: &Name) -> Option<Mode> {
        match place_of(&self.places, name) {
            Ok(at) => self.places[at].mode(&txn),
            Err(_) => None,
        }
    }

    fn waits_for(&self, txn: Txn) -> Result<List<Txn>, NoMemory> {
        awaited_on(self.alloc, &txn, &self.places, pairs_of(&self.pairs, &txn))
    }
}
