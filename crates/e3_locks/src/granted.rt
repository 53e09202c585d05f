// Locks with their names, and the lock rule over lists of them.
ghost use Rattle.std.specs.Prelude.{◌≤◌, vec_len, vec_capacity, ◌≡◌, ◌++◌, ◌∷◌, [], ◌&&◌, ◌||◌, not, filter, fold, IfOk, Some, false, length, ◌<◌, take, MatchOption, slice_index_or};
ghost use Rattle.std.specs.List.{list_any, list_all};
ghost use Rattle.e3_types.specs.Locks.{lock_grant, is_covered, covers, opposes, against};
ghost use Rattle.e3_types.specs.Same.{same_txn, same_numbers, is_older};
ghost use Rattle.e3_locks.specs.OldestSoFar.{oldest_so_far};
ghost use Rattle.e3_world.specs.Operations.{stronger};
ghost use Rattle.e3_locks.specs.Places.{others_of, mode_held};
ghost use Rattle.e3_locks.specs.LockLists.{lock_of, on};

use crate::rule::oldest_so_far;
use e3_types::{Grant, Lock, Mode, Name, Txn};

/// A transaction's lock on a record: one that it holds or waits for, or that a release would grant.
#[derive(Drop)]
pub struct Granted {
    pub txn: Txn,
    pub name: Name,
    pub mode: Mode,
}

impl Granted {
    // A transaction's lock on a name.
    pub(crate) fn of(txn: &Txn, name: &Name, mode: Mode) -> Granted
        ensures { result ≡ record { txn = txn.now; name = name.now; mode = mode } }
    {
        Granted {
            txn: *txn,
            name: name.copy(),
            mode,
        }
    }

    /// An equal lock.
    pub fn copy(&self) -> Granted
        ensures { result ≡ self.now }
    {
        Granted {
            txn: self.txn,
            name: self.name.copy(),
            mode: self.mode,
        }
    }

    // The lock without its name.
    pub(crate) fn lock(&self) -> Lock
        ensures { result ≡ lock_of self.now }
    {
        Lock {
            txn: self.txn,
            mode: self.mode,
        }
    }

    // The lock is the wanted one's transaction's, and covers it.
    fn is_enough(&self, wanted: &Lock) -> bool
        ensures { result ≡ (same_txn self.now.txn wanted.now.txn && covers self.now.mode wanted.now.mode) }
    {
        self.txn.is_same(&wanted.txn) && self.mode.covers(wanted.mode)
    }

    // The lock is not in the way of the one that is wanted, or younger.
    fn lets_wait(&self, wanted: &Lock) -> bool
        ensures { result ≡ (not (opposes wanted.now (lock_of self.now)) || is_older wanted.now.txn self.now.txn) }
    {
        !wanted.opposes(&self.lock()) || wanted.txn.is_older(&self.txn)
    }

    // The lock is on the name.
    pub(crate) fn is_on(&self, name: &Name) -> bool
        ensures { result ≡ same_numbers name.now self.now.name }
    {
        name.is_same(&self.name)
    }
}

fn any_covers(wanted: &Lock, name: &Name, locks: &[Granted]) -> bool
    ensures { result ≡ list_any (λ g. same_numbers name.now g.name && (same_txn g.txn wanted.now.txn && covers g.mode wanted.now.mode)) locks.now }
{
    locks.iter().any(|g| g.is_on(name) && g.is_enough(wanted))
}

// The transaction's lock among those on the name covers the one that it wants.
fn is_covered(wanted: &Lock, name: &Name, locks: &[Granted]) -> bool
    ensures { result ≡ is_covered wanted.now (on name.now locks.now) }
{
    any_covers(wanted, name, locks)
}

fn any_opposed(wanted: &Lock, name: &Name, locks: &[Granted]) -> bool
    ensures { result ≡ list_any (λ g. same_numbers name.now g.name && opposes wanted.now (lock_of g)) locks.now }
{
    locks
        .iter()
        .any(|g| g.is_on(name) && wanted.opposes(&g.lock()))
}

// One of those on the name conflicts with the one that is wanted, and is another transaction's.
pub(crate) fn is_opposed(wanted: &Lock, name: &Name, locks: &[Granted]) -> bool
    ensures { result ≡ list_any (opposes wanted.now) (on name.now locks.now) }
{
    any_opposed(wanted, name, locks)
}

fn all_let_wait(wanted: &Lock, name: &Name, held: &[Granted], queue: &[Granted]) -> bool
    ensures { result ≡ list_all (λ g. not (same_numbers name.now g.name) || (not (opposes wanted.now (lock_of g)) || is_older wanted.now.txn g.txn)) (held.now ++ queue.now) }
{
    held.iter()
        .chain(queue.iter())
        .all(|g| !g.is_on(name) || g.lets_wait(wanted))
}

// The transaction is older than all whose locks among those on the name conflict with the one that it wants.
fn is_older_than_all(wanted: &Lock, name: &Name, held: &[Granted], queue: &[Granted]) -> bool
    ensures { result ≡ list_all (λ l. not (opposes wanted.now l) || is_older wanted.now.txn l.txn) (on name.now held.now ++ on name.now queue.now) }
{
    all_let_wait(wanted, name, held, queue)
}

// The oldest of the one so far and of all whose locks among those on the name conflict with the one that is wanted.
fn oldest_against(wanted: &Lock, name: &Name, locks: &[Granted], so_far: Option<Txn>) -> Option<Txn>
    ensures { result ≡ fold oldest_so_far so_far (against wanted.now (on name.now locks.now)) }
{
    let mut oldest = so_far;
    for g in locks {
        if g.is_on(name) && wanted.opposes(&g.lock()) {
            oldest = oldest_so_far(oldest, &g.txn);
        }
    }
    oldest
}

// What the lock rule answers, where these hold locks and those wait, each of them on some name.
#[tactic(auto, using(crate::proofs::Grants::grant_held, crate::proofs::Grants::grant_waits, crate::proofs::Grants::grant_dies))]
pub(crate) fn grant_on(wanted: &Lock, name: &Name, held: &[Granted], queue: &[Granted]) -> Grant
    ensures { result ≡ lock_grant wanted.now (on name.now held.now) (on name.now queue.now) }
{
    if is_covered(wanted, name, held) {
        return Grant::Held;
    }
    let among_holders = oldest_against(wanted, name, held, None);
    match oldest_against(wanted, name, queue, among_holders) {
        None => Grant::Held,
        Some(older) => {
            if is_older_than_all(wanted, name, held, queue) {
                Grant::Waits
            } else {
                Grant::Dies { older }
            }
        }
    }
}

// The stronger of the mode so far and another.
pub(crate) fn stronger(so_far: Option<Mode>, lock: &Lock) -> Option<Mode>
    ensures { result ≡ stronger so_far lock.now }
{
    match so_far {
        Some(Mode::Exclusive) => Some(Mode::Exclusive),
        _ => Some(lock.mode),
    }
}

// The strongest mode in which the transaction has a lock on the name among these, if it has one.
pub(crate) fn mode_on(txn: &Txn, name: &Name, locks: &[Granted]) -> Option<Mode>
    ensures { result ≡ mode_held txn.now (on name.now locks.now) }
{
    let mut mode = None;
    for g in locks {
        if g.is_on(name) && txn.is_same(&g.txn) {
            mode = stronger(mode, &g.lock());
        }
    }
    mode
}

// The locks that are not the transaction's stay.
pub(crate) fn keep_others(locks: &mut Vec<Granted>, txn: &Txn)
    ensures items { locks.new.items ≡ filter (λ g. not (same_txn txn.now g.txn)) locks.old.items }
    ensures len { vec_len locks.new ≤ vec_len locks.old }
    ensures capacity { vec_capacity locks.new ≡ vec_capacity locks.old }
{
    locks.retain(|g| !txn.is_same(&g.txn));
}
