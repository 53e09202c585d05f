// The transactions that a site knows, and those of them that are open.
ghost use Rattle.std.specs.Prelude.{◌≡◌, ◌++◌, ◌∷◌, [], fold, filter, map, length, ◌≤◌, IfOk, MatchOption};
ghost use Rattle.std.specs.List.{flat_map};
ghost use Rattle.e3_world.specs.Items.{undecided_in};
ghost use Rattle.e3_readings.specs.Opens.{open_in};
ghost use Rattle.e3_world.specs.Items.{add_txn, began_in, known_txns, txn_of_record};
ghost use Rattle.e3_world.specs.Logs.{is_undecided};
ghost use Rattle.e3_world.specs.Operations.{arrivals};

use crate::{arrivals, is_undecided};
use e3_locks::add_txn;
use e3_types::{List, NoMemory, Record, Told, Txn};
use e3_world::{Life, Moment};
use std::alloc::Global;

/// The transaction of a record, if it is of one.
pub fn txn_of_record(r: &Record) -> Option<&Txn>
    ensures { MatchOption result (txn_of_record r.now ≡ []) (λ t. txn_of_record r.now ≡ t.now ∷ []) }
{
    match r {
        Record::Vote { txn, .. }
        | Record::Join { txn, .. }
        | Record::Attempt { txn, .. }
        | Record::Decision { txn, .. } => Some(txn),
        Record::Birth { .. } | Record::Inc { .. } => None,
    }
}

// Adds the transaction of a record.
fn add_recorded(r: &Record, txns: &mut List<Txn>) -> Result<(), NoMemory>
    ensures { IfOk result (λ u. txns.new ≡ txns.old ++ txn_of_record r.now) }
{
    match txn_of_record(r) {
        Some(t) => txns.push(*t),
        None => Ok(()),
    }
}

/// Adds the transactions of a log, one for each record that has one.
pub fn add_logged(log: &[Record], txns: &mut List<Txn>) -> Result<(), NoMemory>
    ensures { IfOk result (λ u. txns.new ≡ txns.old ++ flat_map txn_of_record log.now) }
{
    for r in log {
        add_recorded(r, txns)?;
    }
    Ok(())
}

// Adds the transactions of the operations that came to the site.
fn add_arrived(
    alloc: Global,
    site: u32,
    steps: &[Moment],
    txns: &mut List<Txn>,
) -> Result<(), NoMemory>
    requires { length steps.now ≤ 4294967295 }
    ensures { IfOk result (λ u. txns.new ≡ txns.old ++ map (λ a. a.txn) (arrivals site steps.now)) }
{
    let asked = arrivals(alloc, site, steps)?;
    for a in asked.as_slice() {
        txns.push(a.txn)?;
    }
    Ok(())
}

// Adds the transactions that a step told as begun.
fn add_began(told: &[Told], txns: &mut List<Txn>) -> Result<(), NoMemory>
    ensures { IfOk result (λ u. txns.new ≡ txns.old ++ flat_map began_in told.now) }
{
    for event in told {
        if let Told::Began { txn } = event {
            txns.push(*txn)?;
        }
    }
    Ok(())
}

// Adds the transactions that the site began.
fn add_begun(steps: &[Moment], txns: &mut List<Txn>) -> Result<(), NoMemory>
    ensures { IfOk result (λ u. txns.new ≡ txns.old ++ flat_map (λ m. flat_map began_in m.told) steps.now) }
{
    for m in steps {
        add_began(m.told.as_slice(), txns)?;
    }
    Ok(())
}

// All transactions that a site knows, some more than once.
fn known_txns(alloc: Global, site: u32, life: &Life) -> Result<List<Txn>, NoMemory>
    requires { length life.now.steps ≤ 4294967295 }
    ensures { IfOk result (λ txns. txns ≡ known_txns site life.now) }
{
    let mut txns = List::new(alloc);
    add_logged(life.log.as_slice(), &mut txns)?;
    add_arrived(alloc, site, life.steps.as_slice(), &mut txns)?;
    add_begun(life.steps.as_slice(), &mut txns)?;
    Ok(txns)
}

// Adds the undecided ones of these transactions.
fn add_undecided(txns: &[Txn], log: &[Record], out: &mut List<Txn>) -> Result<(), NoMemory>
    ensures { IfOk result (λ u. out.new ≡ out.old ++ filter (λ t. is_undecided t log.now) txns.now) }
{
    for t in txns {
        if is_undecided(t, log) {
            out.push(*t)?;
        }
    }
    Ok(())
}

/// Adds the undecided transactions that a site with this life knows, some more than once, in the order in which it is
/// asked: those of its log first, then those of operations that came to it, then those that it began. Want of memory is
/// the only error; some of them may have been added then.
pub fn add_undecided_in(
    alloc: Global,
    site: u32,
    life: &Life,
    out: &mut List<Txn>,
) -> Result<(), NoMemory>
    requires { length life.now.steps ≤ 4294967295 }
    ensures { IfOk result (λ u. out.new ≡ out.old ++ undecided_in site life.now) }
{
    let known = known_txns(alloc, site, life)?;
    add_undecided(known.as_slice(), life.log.as_slice(), out)
}

/// These transactions in ascending order, each once. Want of memory is the only error.
pub fn in_order(alloc: Global, txns: &[Txn]) -> Result<List<Txn>, NoMemory>
    ensures { IfOk result (λ out. out ≡ fold add_txn [] txns.now) }
{
    let mut out = Vec::new(alloc);
    for t in txns {
        add_txn(t, &mut out)?;
    }
    Ok(List::from_vec(out))
}

/// The undecided transactions that a site with this life knows, each once and ascending. Want of memory is the only error.
pub fn open_in(alloc: Global, site: u32, life: &Life) -> Result<List<Txn>, NoMemory>
    requires { length life.now.steps ≤ 4294967295 }
    ensures { IfOk result (λ txns. txns ≡ open_in site life.now) }
{
    let mut undecided = List::new(alloc);
    add_undecided_in(alloc, site, life, &mut undecided)?;
    in_order(alloc, undecided.as_slice())
}
