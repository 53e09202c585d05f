// Whom a transaction waits for.
ghost use Rattle.std.specs.Prelude.{◌≡◌, ◌≤◌, ◌++◌, [], if◌then◌else◌, IfOk, MatchOption, length, fold, take, drop};
ghost use Rattle.std.specs.List.{insert};
ghost use Rattle.e3_types.specs.Locks.{against};
ghost use Rattle.e3_types.specs.Same.{same_txn};
ghost use Rattle.e3_world.specs.Items.{add_txn};
ghost use Rattle.e3_locks.specs.LockLists.{on};
ghost use Rattle.e3_locks.specs.Waiting.{awaited, awaited_at, waits_for};

use crate::Granted;
use crate::fronts::names_of;
use e3_types::{List, Lock, Name, NoMemory, Txn};
use std::alloc::Global;

// Where a transaction would stand among these, the oldest first; none if it is one of them.
fn place_among(txns: &[Txn], new: &Txn) -> Option<usize>
    ensures { MatchOption result (add_txn txns.now new.now ≡ txns.now)
        (λ at. (at ≤ length txns.now) × (add_txn txns.now new.now ≡ insert txns.now at new.now)) }
{
    for (k, txn) in txns.iter().enumerate() {
        if txn.is_same(new) {
            return None;
        }
        if new.is_older(txn) {
            return Some(k);
        }
    }
    Some(txns.len())
}

/// Adds a transaction in its place among these, which ascend, unless it is there. Want of memory is the only error.
pub fn add_txn(new: &Txn, txns: &mut Vec<Txn>) -> Result<(), NoMemory>
    ensures { IfOk result (λ u. txns.new.items ≡ add_txn txns.old.items new.now) }
{
    match place_among(txns, new) {
        None => Ok(()),
        Some(at) => match txns.insert(at, *new) {
            Ok(()) => Ok(()),
            Err(_) => Err(NoMemory),
        },
    }
}

// Adds those whose locks among these are in the way of the one that is wanted.
fn add_against(wanted: &Lock, ahead: &[Lock], out: &mut Vec<Txn>) -> Result<(), NoMemory>
    ensures { IfOk result (λ u. out.new.items ≡ fold add_txn out.old.items (against wanted.now ahead.now)) }
{
    for lock in ahead {
        if wanted.opposes(lock) {
            add_txn(&lock.txn, out)?;
        }
    }
    Ok(())
}

// Adds those that a request waits for, if it is the transaction's.
fn add_own(t: &Txn, wanted: &Lock, ahead: &[Lock], out: &mut Vec<Txn>) -> Result<(), NoMemory>
    ensures { IfOk result (λ u. out.new.items ≡ fold add_txn out.old.items (if same_txn t.now wanted.now.txn then against wanted.now ahead.now else [])) }
{
    if t.is_same(&wanted.txn) {
        add_against(wanted, ahead, out)
    } else {
        Ok(())
    }
}

// Adds those that the transaction waits for on a name, of whose locks so many are held, and the others waited for.
pub(crate) fn add_awaited(
    t: &Txn,
    locks: &[Lock],
    held: usize,
    out: &mut Vec<Txn>,
) -> Result<(), NoMemory>
    requires { held ≤ length locks.now }
    ensures { IfOk result (λ u. out.new.items ≡ fold add_txn out.old.items (awaited t.now (take held locks.now) (drop held locks.now))) }
{
    let mut k = held;
    'waiters: while k < locks.len() {
        add_own(t, &locks[k], &locks[..k], out)?;
        k += 1;
    }
    Ok(())
}

// Adds the locks on a name among these.
fn push_on(name: &Name, locks: &[Granted], out: &mut Vec<Lock>) -> Result<(), NoMemory>
    ensures { IfOk result (λ u. out.new.items ≡ out.old.items ++ on name.now locks.now) }
{
    for g in locks {
        if g.is_on(name) {
            match out.push(g.lock()) {
                Ok(()) => {}
                Err(_) => return Err(NoMemory),
            }
        }
    }
    Ok(())
}

// Adds those that the transaction waits for on a name, where these hold locks and those wait, each of them on some name.
fn add_awaited_on(
    alloc: Global,
    t: &Txn,
    name: &Name,
    held: &[Granted],
    queue: &[Granted],
    out: &mut Vec<Txn>,
) -> Result<(), NoMemory>
    ensures { IfOk result (λ u. out.new.items ≡ fold add_txn out.old.items (awaited t.now (on name.now held.now) (on name.now queue.now))) }
{
    let mut locks = Vec::new(alloc);
    push_on(name, held, &mut locks)?;
    let border = locks.len();
    push_on(name, queue, &mut locks)?;
    add_awaited(t, &locks, border, out)
}

// Those that the transaction waits for, where these hold locks and those wait.
pub(crate) fn all_awaited(
    alloc: Global,
    t: &Txn,
    held: &[Granted],
    queue: &[Granted],
) -> Result<List<Txn>, NoMemory>
    ensures { IfOk result (λ out. out ≡ waits_for t.now (record { held = held.now; queue = queue.now; room = 0 })) }
{
    let names = names_of(alloc, queue)?;
    let mut out = Vec::new(alloc);
    for name in names.as_slice() {
        add_awaited_on(alloc, t, name, held, queue, &mut out)?;
    }
    Ok(List::from_vec(out))
}
