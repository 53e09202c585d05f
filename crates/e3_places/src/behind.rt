// What stands on a name, or of a transaction, behind one more step.
ghost use Rattle.std.specs.Prelude.{◌≡◌, ◌++◌, IfOk, filter, fold, map};
ghost use Rattle.std.specs.List.{flat_map, list_any};
ghost use Rattle.e3_types.specs.Same.{same_txn};
ghost use Rattle.e3_places.specs.Keeping.{bare, no_claims};
ghost use Rattle.e3_places.specs.Standing.{passes, is_told, is_sent, is_heard, decided_in, voted, cast_in, cast_of, is_left, again, newly, votes_by, claims_by, written, row_with, row_by, place_by};

use crate::doings::Doings;
use crate::picks::Pick;
use crate::places::{Claims, Place, Standing, bare, no_claims};
use e3_readings::{copy_asked, is_decision};
use e3_tables::write_of;
use e3_types::{Answer, Dir, List, Message, Name, NoMemory, NumOp, Packet, Record, Told, Txn};
use e3_world::Asked;
use std::alloc::Global;

/// These records decide the transaction.
pub fn decided_in(records: &[Record], t: &Txn) -> bool
    ensures { result ≡ decided_in records.now t.now }
{
    records.iter().any(|r| is_decision(t, r))
}

fn is_told(a: &Asked, e: &Told) -> bool
    ensures { result ≡ is_told a.now e.now }
{
    match e {
        Told::Op { txn, n, .. } => a.n == *n && a.txn.is_same(txn),
        _ => false,
    }
}

fn is_sent(a: &Asked, packet: &Packet) -> bool
    ensures { result ≡ is_sent a.now packet.now }
{
    match &packet.msg {
        Message::Done { txn, n, .. } => a.n == *n && a.txn.is_same(txn),
        _ => false,
    }
}

fn any_told(events: &[Told], a: &Asked) -> bool
    ensures { result ≡ list_any (is_told a.now) events.now }
{
    events.iter().any(|e| is_told(a, e))
}

fn any_sent(outs: &[Packet], a: &Asked) -> bool
    ensures { result ≡ list_any (is_sent a.now) outs.now }
{
    outs.iter().any(|p| is_sent(a, p))
}

/// One of these events and packets answers the operation.
pub fn is_heard(events: &[Told], outs: &[Packet], a: &Asked) -> bool
    ensures { result ≡ is_heard events.now outs.now a.now }
{
    any_told(events, a) || any_sent(outs, a)
}

fn add_again(doings: &Doings<'_>, was: &Standing, out: &mut List<Standing>) -> Result<(), NoMemory>
    ensures { IfOk result (λ u. out.new ≡ out.old ++ again doings.now.records.now doings.now.events.now doings.now.outs.now was.now) }
{
    if decided_in(doings.records, &was.asked.txn) {
        return Ok(());
    }
    out.push(Standing {
        asked: copy_asked(&was.asked),
        answered: was.answered || is_heard(doings.events, doings.outs, &was.asked),
    })
}

fn add_standing(
    doings: &Doings<'_>,
    was: &[Standing],
    out: &mut List<Standing>,
) -> Result<(), NoMemory>
    ensures { IfOk result (λ u. out.new ≡ out.old ++ flat_map (again doings.now.records.now doings.now.events.now doings.now.outs.now) was.now) }
{
    for s in was {
        add_again(doings, s, out)?;
    }
    Ok(())
}

fn add_newly(doings: &Doings<'_>, pick: &Pick, out: &mut List<Standing>) -> Result<(), NoMemory>
    ensures { IfOk result (λ u. out.new ≡ out.old ++ flat_map (again doings.now.records.now doings.now.events.now doings.now.outs.now) (newly (passes pick.now) doings.now.new.now)) }
{
    let new = doings.new;
    match new {
        Some(s) if pick.passes(&s.asked) => add_again(doings, s, out),
        _ => Ok(()),
    }
}

/// An operation of a vote.
pub(crate) fn voted(t: &Txn, o: &NumOp) -> Asked
    ensures { result ≡ voted t.now o.now }
{
    Asked {
        txn: *t,
        n: o.n,
        op: o.op.copy(),
    }
}

fn add_cast(pick: &Pick, t: &Txn, ops: &[NumOp], out: &mut List<Asked>) -> Result<(), NoMemory>
    ensures { IfOk result (λ u. out.new ≡ out.old ++ filter (passes pick.now) (map (voted t.now) ops.now)) }
{
    for o in ops {
        let a = voted(t, o);
        if pick.passes(&a) {
            out.push(a)?;
        }
    }
    Ok(())
}

fn add_record(pick: &Pick, r: &Record, out: &mut List<Asked>) -> Result<(), NoMemory>
    ensures { IfOk result (λ u. out.new ≡ out.old ++ filter (passes pick.now) (cast_in r.now)) }
{
    match r {
        Record::Vote { txn, ops } => add_cast(pick, txn, ops.as_slice(), out),
        _ => Ok(()),
    }
}

fn add_cast_of(pick: &Pick, records: &[Record], out: &mut List<Asked>) -> Result<(), NoMemory>
    ensures { IfOk result (λ u. out.new ≡ out.old ++ filter (passes pick.now) (cast_of records.now)) }
{
    for r in records {
        add_record(pick, r, out)?;
    }
    Ok(())
}

/// Those that are picked of the operations of these records' votes.
pub fn cast_on(alloc: Global, pick: &Pick, records: &[Record]) -> Result<List<Asked>, NoMemory>
    ensures { IfOk result (λ out. out ≡ filter (passes pick.now) (cast_of records.now)) }
{
    let mut out = List::new(alloc);
    add_cast_of(pick, records, &mut out)?;
    Ok(out)
}

fn add_left(records: &[Record], asked: &[Asked], out: &mut List<Asked>) -> Result<(), NoMemory>
    ensures { IfOk result (λ u. out.new ≡ out.old ++ filter (is_left records.now) asked.now) }
{
    for a in asked {
        if !decided_in(records, &a.txn) {
            out.push(copy_asked(a))?;
        }
    }
    Ok(())
}

// Adds the operations of votes behind a step.
fn add_votes(
    alloc: Global,
    pick: &Pick,
    votes: &[Asked],
    records: &[Record],
    out: &mut List<Asked>,
) -> Result<(), NoMemory>
    ensures { IfOk result (λ u. out.new ≡ out.old ++ votes_by (passes pick.now) votes.now records.now) }
{
    let cast = cast_on(alloc, pick, records)?;
    add_left(records, votes, out)?;
    add_left(records, cast.as_slice(), out)
}

/// The operations of votes behind a step.
pub fn votes_by(
    alloc: Global,
    pick: &Pick,
    votes: &[Asked],
    records: &[Record],
) -> Result<List<Asked>, NoMemory>
    ensures { IfOk result (λ out. out ≡ votes_by (passes pick.now) votes.now records.now) }
{
    let mut out = List::new(alloc);
    add_votes(alloc, pick, votes, records, &mut out)?;
    Ok(out)
}

// Adds the claims that are picked behind a step: what may be refused borrows those that it makes.
fn add_claims(
    doings: &Doings<'_>,
    pick: &Pick,
    was: &Claims,
    out: &mut Claims,
) -> Result<(), NoMemory>
    requires { out.old ≡ no_claims }
    ensures { IfOk result (λ u. out.new ≡ claims_by (passes pick.now) was.now doings.now.new.now doings.now.records.now doings.now.events.now doings.now.outs.now) }
{
    add_standing(doings, was.standing.as_slice(), &mut out.standing)?;
    add_newly(doings, pick, &mut out.standing)?;
    add_votes(
        doings.alloc,
        pick,
        was.votes.as_slice(),
        doings.records,
        &mut out.votes,
    )
}

/// The claims that are picked behind a step.
pub(crate) fn claims_by(doings: &Doings<'_>, pick: &Pick, was: &Claims) -> Result<Claims, NoMemory>
    ensures { IfOk result (λ c. c ≡ claims_by (passes pick.now) was.now doings.now.new.now doings.now.records.now doings.now.events.now doings.now.outs.now) }
{
    let mut out = no_claims(doings.alloc);
    match add_claims(doings, pick, was, &mut out) {
        Ok(()) => Ok(out),
        Err(e) => {
            drop(out);
            Err(e)
        }
    }
}

fn written(was: Answer, a: &Asked) -> Answer
    ensures { result ≡ written was a.now }
{
    match write_of(&a.op) {
        Some((_, val)) => Answer::Value(val.copy()),
        None => was,
    }
}

fn committed(t: &Txn, asked: &[Asked], was: Answer) -> Answer
    ensures { result ≡ fold written was (filter (λ a. same_txn t.now a.txn) asked.now) }
{
    let mut answer = was;
    for a in asked {
        if t.is_same(&a.txn) {
            answer = written(answer, a);
        }
    }
    answer
}

fn commit(t: &Txn, votes: &[Asked], cast: &[Asked], was: Answer) -> Answer
    ensures { result ≡ fold written was (filter (λ a. same_txn t.now a.txn) (votes.now ++ cast.now)) }
{
    committed(t, cast, committed(t, votes, was))
}

pub(crate) fn row_with(votes: &[Asked], cast: &[Asked], was: Answer, r: &Record) -> Answer
    ensures { result ≡ row_with (votes.now ++ cast.now) was r.now }
{
    match r {
        Record::Decision {
            txn,
            dir: Dir::Commit,
        } => commit(txn, votes, cast, was),
        _ => was,
    }
}

fn rows_with(votes: &[Asked], cast: &[Asked], was: Answer, records: &[Record]) -> Answer
    ensures { result ≡ fold (row_with (votes.now ++ cast.now)) was records.now }
{
    let mut answer = was;
    for r in records {
        answer = row_with(votes, cast, answer, r);
    }
    answer
}

/// What a read of the name answers, where these records are made.
pub fn row_by(
    alloc: Global,
    name: &Name,
    place: &Place,
    records: &[Record],
) -> Result<Answer, NoMemory>
    ensures { IfOk result (λ x. x ≡ row_by name.now place.now records.now) }
{
    let cast = cast_on(alloc, &Pick::On(name.copy()), records)?;
    Ok(rows_with(
        place.claims.votes.as_slice(),
        cast.as_slice(),
        place.row.copy(),
        records,
    ))
}

// A bare place becomes what stands on a name behind a step.
fn fill_place(
    doings: &Doings<'_>,
    name: &Name,
    was: &Place,
    out: &mut Place,
) -> Result<(), NoMemory>
    requires { out.old ≡ bare }
    ensures { IfOk result (λ u. out.new ≡ place_by name.now was.now doings.now.new.now doings.now.records.now doings.now.events.now doings.now.outs.now) }
{
    out.row = row_by(doings.alloc, name, was, doings.records)?;
    add_claims(doings, &Pick::On(name.copy()), &was.claims, &mut out.claims)
}

/// What stands on a name behind a step.
pub(crate) fn place_by(doings: &Doings<'_>, name: &Name, was: &Place) -> Result<Place, NoMemory>
    ensures { IfOk result (λ p. p ≡ place_by name.now was.now doings.now.new.now doings.now.records.now doings.now.events.now doings.now.outs.now) }
{
    let mut out = bare(doings.alloc);
    match fill_place(doings, name, was, &mut out) {
        Ok(()) => Ok(out),
        Err(e) => {
            drop(out);
            Err(e)
        }
    }
}
