// The lock rule over the locks of one record: who gets a lock, who waits and who dies, and who gets one next.
ghost use Rattle.std.specs.Prelude.{◌≡◌, ◌≤◌, ◌++◌, ◌||◌, not, [], ◌∷◌, IfOk, length, take, Some, fold};
ghost use Rattle.std.specs.List.{list_all};
ghost use Rattle.e3_types.specs.Same.{is_older};
ghost use Rattle.e3_types.specs.Locks.{opposes, against, lock_grant, front};
ghost use Rattle.e3_locks.specs.OldestSoFar.{oldest_so_far};

use e3_types::{Grant, List, Lock, NoMemory, Txn};
use std::alloc::Global;

// The transaction is older than all whose locks conflict with the one that it wants.
fn is_older_than_all(wanted: &Lock, holders: &[Lock], waiters: &[Lock]) -> bool
    ensures { result ≡ list_all (λ l. not (opposes wanted.now l) || is_older wanted.now.txn l.txn) (holders.now ++ waiters.now) }
{
    holders.iter().chain(waiters.iter()).all(|lock| !wanted.opposes(lock)
        || wanted.txn.is_older(&lock.txn))
}

// The older of the one so far and another.
pub(crate) fn oldest_so_far(so_far: Option<Txn>, txn: &Txn) -> Option<Txn>
    ensures { result ≡ oldest_so_far so_far txn.now }
{
    match so_far {
        Some(oldest) if !txn.is_older(&oldest) => Some(oldest),
        _ => Some(*txn),
    }
}

// The oldest of the one so far and of all whose locks among these conflict with the one that is wanted.
fn oldest_against(wanted: &Lock, locks: &[Lock], so_far: Option<Txn>) -> Option<Txn>
    ensures { result ≡ fold oldest_so_far so_far (against wanted.now locks.now) }
{
    let mut oldest = so_far;
    for lock in locks {
        if wanted.opposes(lock) {
            oldest = oldest_so_far(oldest, &lock.txn);
        }
    }
    oldest
}

/// Whether a transaction gets a lock, where these hold locks of the record and those wait ahead of it. A lock that its
/// own covers is held. Another is held where nobody conflicts; the transaction waits where it is older than all who do,
/// and dies otherwise.
#[tactic(auto, using(crate::proofs::Grants::grant_held, crate::proofs::Grants::grant_waits, crate::proofs::Grants::grant_dies))]
pub fn lock_grant(wanted: &Lock, holders: &[Lock], waiters: &[Lock]) -> Grant
    ensures { result ≡ lock_grant wanted.now holders.now waiters.now }
{
    if wanted.is_covered(holders) {
        return Grant::Held;
    }
    let among_holders = oldest_against(wanted, holders, None);
    match oldest_against(wanted, waiters, among_holders) {
        None => Grant::Held,
        Some(older) => {
            if is_older_than_all(wanted, holders, waiters) {
                Grant::Waits
            } else {
                Grant::Dies { older }
            }
        }
    }
}

/// How many of a queue get their lock, where these hold locks of the record: the longest front whose members are each
/// compatible with all other holders.
pub(crate) fn front_length(holders: &[Lock], queue: &[Lock]) -> usize
    ensures few { result ≤ length queue.now }
    ensures front { take result queue.now ≡ front holders.now queue.now }
{
    for (k, next) in queue.iter().enumerate() {
        if next.is_opposed(holders) || next.is_opposed(&queue[..k]) {
            return k;
        }
    }
    queue.len()
}

/// Those of a queue that get their lock, in the order of the queue. Want of memory is the only error.
pub fn front(alloc: Global, holders: &[Lock], queue: &[Lock]) -> Result<List<Lock>, NoMemory>
    ensures { IfOk result (λ granted. granted ≡ front holders.now queue.now) }
{
    let mut granted = List::new(alloc);
    granted.extend(&queue[..front_length(holders, queue)])?;
    Ok(granted)
}
