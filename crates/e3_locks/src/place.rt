// The locks of one name.
ghost use Rattle.std.specs.Prelude.{◌≡◌, ◌≤◌, ◌<◌, ◌+◌, ◌^◌, ◌++◌, ◌∷◌, [], not, filter, fold, map, IfOk, OnOk, OnErr, length, take, drop, vec_len, vec_capacity};
ghost use Rattle.std.specs.List.{insert};
ghost use Rattle.e3_types.specs.Locks.{front};
ghost use Rattle.e3_types.specs.Same.{same_txn};
ghost use Rattle.e3_world.specs.Items.{add_txn};
ghost use Rattle.e3_locks.specs.LockLists.{named};
ghost use Rattle.e3_locks.specs.Places.{would, requested, others_of, without, advanced, released, mode_held};
ghost use Rattle.e3_locks.specs.Standing.{count_at, released_at};
ghost use Rattle.e3_locks.specs.Waiting.{awaited_at};

use crate::fronts::push_named;
use crate::granted::stronger;
use crate::rule::front_length;
use crate::waits::add_awaited;
use crate::{Granted, front, lock_grant};
use e3_types::{Grant, List, Lock, Mode, Name, Named, NoMemory, Txn};
use std::alloc::Global;
use std::marker::Model;
use std::mem;

// A name with its locks. Of those that stand in one vector the first are held, so many, and the others wait, the first
// arrival first.
#[derive(Drop)]
pub(crate) struct NameLocks {
    name: Name,
    locks: Vec<Lock>,
    held: usize,
}

impl Model for NameLocks {
    ghost use Rattle.std.specs.Prelude.{◌≤◌, length, take, drop};
    ghost use Rattle.e3_locks.specs.Standing.{Standing};

    ghost Value = { Standing };

    ghost view = { λ a. record {
      name = a.name;
      place = record { held = take a.held a.locks.items; queue = drop a.held a.locks.items };
    } };

    ghost invariant = { λ a. a.held ≤ length a.locks.items };
}

impl Named for NameLocks {
    ghost name_of = { λ s. s.name };

    fn name(&self) -> &Name {
        &self.name
    }
}

/// The strongest mode in which the transaction has one of these locks, if it has one.
pub fn mode_among(txn: &Txn, locks: &[Lock]) -> Option<Mode>
    ensures { result ≡ mode_held txn.now locks.now }
{
    let mut mode = None;
    for lock in locks {
        if txn.is_same(&lock.txn) {
            mode = stronger(mode, lock);
        }
    }
    mode
}

fn keep_others(locks: &mut Vec<Lock>, t: &Txn)
    ensures { locks.new.items ≡ others_of t.now locks.old.items }
{
    locks.retain(|lock| !t.is_same(&lock.txn));
}

fn count_others(locks: &[Lock], t: &Txn) -> usize
    ensures { result ≡ length (others_of t.now locks.now) }
{
    locks.iter().filter(|lock| !t.is_same(&lock.txn)).count()
}

// Those that are not the transaction's.
fn others(alloc: Global, t: &Txn, locks: &[Lock]) -> Result<List<Lock>, NoMemory>
    ensures { IfOk result (λ out. out ≡ others_of t.now locks.now) }
{
    let mut out = List::new(alloc);
    for lock in locks {
        if !t.is_same(&lock.txn) {
            out.push(*lock)?;
        }
    }
    Ok(out)
}

// A lock more, at this place. Where memory is refused the locks move into the spare room, if they fit there.
fn insert_lock(
    locks: &mut Vec<Lock>,
    at: usize,
    lock: &Lock,
    spare: &mut Vec<Lock>,
) -> Result<(), NoMemory>
    requires at { at ≤ vec_len locks.old }
    requires spare { spare.old.items ≡ [] }
    ensures ok { OnOk result (locks.new.items ≡ insert locks.old.items at lock.now) }
    ensures err { OnErr result (locks.new.items ≡ locks.old.items) }
    ensures spare { spare.new.items ≡ [] }
    ensures full { OnErr result (vec_capacity spare.old ≤ vec_len locks.old) }
{
    match locks.insert(at, *lock) {
        Ok(()) => return Ok(()),
        Err(_) => {}
    }
    match spare.extend_from_slice(locks) {
        Ok(()) => {}
        Err(_) => return Err(NoMemory),
    }
    match spare.insert(at, *lock) {
        Ok(()) => {
            mem::swap(locks, spare);
            spare.clear();
            Ok(())
        }
        Err(_) => {
            spare.clear();
            Err(NoMemory)
        }
    }
}

impl NameLocks {
    // A name with one lock, which is held. It takes the spare room where memory is refused.
    pub(crate) fn first(
        alloc: Global,
        name: &Name,
        lock: &Lock,
        spare: &mut Vec<Lock>,
    ) -> Result<NameLocks, NoMemory>
        requires { spare.old.items ≡ [] }
        ensures ok { IfOk result (λ s. s ≡ record { name = name.now; place = record { held = lock.now ∷ []; queue = [] } }) }
        ensures spare { spare.new.items ≡ [] }
        ensures full { OnErr result (vec_capacity spare.old ≡ 0) }
    {
        let mut locks = Vec::new(alloc);
        insert_lock(&mut locks, 0, lock, spare)?;
        Ok(NameLocks {
            name: name.copy(),
            locks,
            held: 1,
        })
    }

    // What the rule answers to a request.
    pub(crate) fn would(&self, wanted: &Lock) -> Grant
        ensures { result ≡ would wanted.now self.now.place }
    {
        lock_grant(wanted, &self.locks[..self.held], &self.locks[self.held..])
    }

    // The mode in which the transaction holds the name, if it does.
    pub(crate) fn mode(&self, txn: &Txn) -> Option<Mode>
        ensures { result ≡ mode_held txn.now self.now.place.held }
    {
        mode_among(txn, &self.locks[..self.held])
    }

    // How many locks there are.
    pub(crate) fn count(&self) -> usize
        ensures count { result ≡ count_at self.now.place }
        ensures small { result < 2 ^ 63 }
    {
        self.locks.len()
    }

    // A request that was answered so.
    pub(crate) fn put(
        &mut self,
        wanted: &Lock,
        grant: &Grant,
        spare: &mut Vec<Lock>,
    ) -> Result<(), NoMemory>
        requires { spare.old.items ≡ [] }
        ensures ok { OnOk result (self.new ≡ record { name = self.old.name; place = requested wanted.now grant.now self.old.place }) }
        ensures err { OnErr result (self.new ≡ self.old) }
        ensures spare { spare.new.items ≡ [] }
        ensures full { OnErr result (vec_capacity spare.old ≤ count_at self.old.place) }
    {
        match grant {
            Grant::Held => {
                insert_lock(&mut self.locks, self.held, wanted, spare)?;
                self.held += 1;
                Ok(())
            }
            Grant::Waits => {
                let end = self.locks.len();
                insert_lock(&mut self.locks, end, wanted, spare)
            }
            Grant::Dies { .. } => Ok(()),
        }
    }

    // The transaction's locks and requests leave.
    fn remove(&mut self, t: &Txn)
        ensures { self.new ≡ record { name = self.old.name; place = without t.now self.old.place } }
    {
        let held = count_others(&self.locks[..self.held], t);
        keep_others(&mut self.locks, t);
        self.held = held;
    }

    // How many of the queue would get their locks.
    fn front_length(&self) -> usize
        ensures few { result ≤ length self.now.place.queue }
        ensures front { take result self.now.place.queue ≡ front self.now.place.held self.now.place.queue }
    {
        front_length(&self.locks[..self.held], &self.locks[self.held..])
    }

    // The front of the queue gets its locks.
    fn advance(&mut self)
        ensures { self.new ≡ record { name = self.old.name; place = advanced self.old.place } }
    {
        let more = self.front_length();
        self.held += more;
    }

    // The transaction's locks and requests leave, and what that grants is held.
    pub(crate) fn release(&mut self, t: &Txn)
        ensures { self.new ≡ released_at t.now self.old }
    {
        self.remove(t);
        self.advance();
    }

    // Adds what a release of all that the transaction has would grant here.
    pub(crate) fn push_granted(
        &self,
        alloc: Global,
        t: &Txn,
        out: &mut List<Granted>,
    ) -> Result<(), NoMemory>
        ensures { IfOk result (λ u. out.new ≡ out.old
            ++ map (named self.now.name) (front (without t.now self.now.place).held (without t.now self.now.place).queue)) }
    {
        let holders = others(alloc, t, &self.locks[..self.held])?;
        let waiters = others(alloc, t, &self.locks[self.held..])?;
        let granted = front(alloc, holders.as_slice(), waiters.as_slice())?;
        push_named(&self.name, granted.as_slice(), out)
    }

    // Adds those that the transaction waits for here.
    pub(crate) fn add_awaited(&self, t: &Txn, out: &mut Vec<Txn>) -> Result<(), NoMemory>
        ensures { IfOk result (λ u. out.new.items ≡ fold add_txn out.old.items (awaited_at t.now self.now.place)) }
    {
        add_awaited(t, &self.locks, self.held, out)
    }
}
