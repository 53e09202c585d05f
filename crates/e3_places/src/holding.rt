// The locks on a name that are held, and those for which operations wait.
ghost use Rattle.std.specs.Prelude.{◌≡◌, ◌++◌, IfOk};
ghost use Rattle.e3_places.specs.Standing.{held_by, wanted_by, held_with, wanted_with};

use crate::behind::{decided_in, votes_by};
use crate::picks::Pick;
use crate::places::{Claims, Standing};
use e3_readings::lock_for;
use e3_types::{List, Lock, Name, NoMemory, Record};
use std::alloc::Global;

fn add_held(records: &[Record], s: &Standing, out: &mut List<Lock>) -> Result<(), NoMemory>
    ensures { IfOk result (λ u. out.new ≡ out.old ++ held_by records.now s.now) }
{
    if s.answered && !decided_in(records, &s.asked.txn) {
        let lock = lock_for(&s.asked);
        out.push(lock)?;
    }
    Ok(())
}

/// The locks on a name that are held, where these records are made: for operations done and behind them for votes.
pub fn held(
    alloc: Global,
    name: &Name,
    claims: &Claims,
    records: &[Record],
) -> Result<List<Lock>, NoMemory>
    ensures { IfOk result (λ out. out ≡ held_with name.now records.now claims.now) }
{
    let votes = votes_by(
        alloc,
        &Pick::On(name.copy()),
        claims.votes.as_slice(),
        records,
    )?;
    let mut out = List::new(alloc);
    for s in claims.standing.as_slice() {
        add_held(records, s, &mut out)?;
    }
    for a in votes.as_slice() {
        let lock = lock_for(a);
        out.push(lock)?;
    }
    Ok(out)
}

fn add_wanted(records: &[Record], s: &Standing, out: &mut List<Lock>) -> Result<(), NoMemory>
    ensures { IfOk result (λ u. out.new ≡ out.old ++ wanted_by records.now s.now) }
{
    if !s.answered && !decided_in(records, &s.asked.txn) {
        let lock = lock_for(&s.asked);
        out.push(lock)?;
    }
    Ok(())
}

/// The locks for which operations wait, where these records are made, in the order of arrival.
pub fn wanted(alloc: Global, claims: &Claims, records: &[Record]) -> Result<List<Lock>, NoMemory>
    ensures { IfOk result (λ out. out ≡ wanted_with records.now claims.now) }
{
    let mut out = List::new(alloc);
    for s in claims.standing.as_slice() {
        add_wanted(records, s, &mut out)?;
    }
    Ok(out)
}
