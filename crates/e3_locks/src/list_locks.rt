// The locks of a table in plain lists.
ghost use Rattle.std.specs.Prelude.{◌≡◌, ◌≤◌, ◌+◌, ◌-◌, min, [], ℕ, List as Items, OnOk, OnErr, vec_len, vec_capacity};
ghost use Rattle.e3_locks.specs.Places.{advanced};
ghost use Rattle.e3_types.specs.Locks.{lock_grant};
ghost use Rattle.e3_locks.specs.LockLists.{lock_of, on, held_with, queue_with};

use crate::fronts::{all_fronts, first_free};
use crate::granted::{grant_on, keep_others, mode_on};
use crate::waits::all_awaited;
use crate::{Granted, Locks};
use e3_types::{Grant, List, Lock, Mode, Name, NoMemory, Txn};
use std::alloc::Global;
use std::marker::Model;

/// The plain form of a table of locks: those that are held and those that are waited for, in two lists, in the order in
/// which they came.
#[derive(Drop)]
pub struct ListLocks {
    held: Vec<Granted>,
    queue: Vec<Granted>,
    alloc: Global,
}

impl Model for ListLocks {
    ghost use Rattle.std.specs.Prelude.{◌≡◌, ◌+◌, ◌-◌, ◌≤◌, true, ℕ, List, min, vec_len, vec_capacity};
    ghost use Rattle.e3_locks.specs.LockLists.{LockLists, on};
    ghost use Rattle.e3_locks.specs.Waiting.{is_fair};

    ghost Value = { LockLists };

    ghost view = { λ a. record {
      held = a.held.items;
      queue = a.queue.items;
      room = min (vec_capacity a.held - (vec_len a.held + vec_len a.queue)) (vec_capacity a.queue - vec_len a.queue);
    } };

    ghost invariant = { λ a. (vec_len a.held + vec_len a.queue ≤ vec_capacity a.held)
        × ((n : List ℕ) → is_fair (on n a.held.items) (on n a.queue.items) ≡ true) };
}

// Each name's front gets its locks.
fn grant_fronts(held: &mut Vec<Granted>, queue: &mut Vec<Granted>)
    requires { vec_len held.old + vec_len queue.old ≤ vec_capacity held.old }
    ensures places { (n : Items ℕ) → advanced (record { held = on n held.old.items; queue = on n queue.old.items })
        ≡ record { held = on n held.new.items; queue = on n queue.new.items } }
    ensures len { vec_len held.new + vec_len queue.new ≡ vec_len held.old + vec_len queue.old }
    ensures queue { vec_len queue.new ≤ vec_len queue.old }
    ensures held_room { vec_capacity held.new ≡ vec_capacity held.old }
    ensures queue_room { vec_capacity queue.new ≡ vec_capacity queue.old }
{
    'grants: while let Some(at) = first_free(held, queue) {
        let next = queue.remove(at);
        held.push_reserved(next);
    }
}

// Makes room for one lock more that is held, and for one more that waits.
fn make_room(held: &mut Vec<Granted>, queue: &mut Vec<Granted>) -> Result<(), NoMemory>
    ensures held { held.new.items ≡ held.old.items }
    ensures queue { queue.new.items ≡ queue.old.items }
    ensures held_len { vec_len held.new ≡ vec_len held.old }
    ensures queue_len { vec_len queue.new ≡ vec_len queue.old }
    ensures held_room { vec_capacity held.old ≤ vec_capacity held.new }
    ensures queue_room { vec_capacity queue.old ≤ vec_capacity queue.new }
    ensures held_ok { OnOk result (vec_len held.new + vec_len queue.new + 1 ≤ vec_capacity held.new) }
    ensures queue_ok { OnOk result (vec_len queue.new + 1 ≤ vec_capacity queue.new) }
    ensures full { OnErr result (min (vec_capacity held.old - (vec_len held.old + vec_len queue.old)) (vec_capacity queue.old - vec_len queue.old) ≡ 0) }
{
    let more = queue.len() + 1;
    match held.reserve(more) {
        Ok(()) => {}
        Err(_) => return Err(NoMemory),
    }
    match queue.reserve(1) {
        Ok(()) => Ok(()),
        Err(_) => Err(NoMemory),
    }
}

impl ListLocks {
    /// A table without locks.
    pub fn new(alloc: Global) -> ListLocks
        ensures held { result.held ≡ [] }
        ensures queue { result.queue ≡ [] }
    {
        ListLocks {
            held: Vec::new(alloc),
            queue: Vec::new(alloc),
            alloc,
        }
    }
}

impl ListLocks {
    // What a request that was answered so leaves: one lock that is held or waits, or nothing.
    fn put(&mut self, grant: &Grant, asked: Granted) -> Result<(), NoMemory>
        requires { grant.now ≡ lock_grant (lock_of asked) (on asked.name self.old.held) (on asked.name self.old.queue) }
        ensures held { OnOk result (self.new.held ≡ held_with grant.now asked self.old.held) }
        ensures queue { OnOk result (self.new.queue ≡ queue_with grant.now asked self.old.queue) }
        ensures err_held { OnErr result (self.new.held ≡ self.old.held) }
        ensures err_queue { OnErr result (self.new.queue ≡ self.old.queue) }
        ensures full { OnErr result (self.old.room ≡ 0) }
    {
        match make_room(&mut self.held, &mut self.queue) {
            Ok(()) => {}
            Err(_) => return Err(NoMemory),
        }
        match grant {
            Grant::Held => {
                self.held.push_reserved(asked);
                Ok(())
            }
            Grant::Waits => {
                self.queue.push_reserved(asked);
                Ok(())
            }
            Grant::Dies { .. } => Ok(()),
        }
    }
}

impl Locks for ListLocks {
    ghost lists = { λ a. a };

    fn would(&self, txn: Txn, name: &Name, mode: Mode) -> Grant {
        grant_on(&Lock { txn, mode }, name, &self.held, &self.queue)
    }

    fn request(&mut self, txn: Txn, name: &Name, mode: Mode) -> Result<Grant, NoMemory> {
        let asked = Granted::of(&txn, name, mode);
        let grant = grant_on(&asked.lock(), name, &self.held, &self.queue);
        match self.put(&grant, asked) {
            Ok(()) => Ok(grant),
            Err(_) => Err(NoMemory),
        }
    }

    fn reserve(&mut self) -> Result<(), NoMemory> {
        make_room(&mut self.held, &mut self.queue)
    }

    fn grants_after(&self, txn: Txn) -> Result<List<Granted>, NoMemory> {
        all_fronts(self.alloc, &txn, &self.held, &self.queue)
    }

    fn release(&mut self, txn: Txn) {
        keep_others(&mut self.held, &txn);
        keep_others(&mut self.queue, &txn);
        grant_fronts(&mut self.held, &mut self.queue);
    }

    fn holds(&self, txn: Txn, name: &Name) -> Option<Mode> {
        mode_on(&txn, name, &self.held)
    }

    fn waits_for(&self, txn: Txn) -> Result<List<Txn>, NoMemory> {
        all_awaited(self.alloc, &txn, &self.held, &self.queue)
    }
}
