// Which names and transactions a step touches.
ghost use Rattle.std.specs.Prelude.{◌≡◌, ◌++◌, ◌∷◌, [], if◌then◌else◌, IfOk, filter, map};
ghost use Rattle.std.specs.List.{flat_map};
ghost use Rattle.e3_places.specs.Keeping.{txn_id, claims_at};
ghost use Rattle.e3_places.specs.Standing.{decided_in, cast_in, cast_of, voted};
ghost use Rattle.e3_readings.specs.Answering.{answered_txns};
ghost use Rattle.e3_places.specs.Touching.{name_of, decided_txns, told_txns, reached, is_moved, moved_names, added, names_touched, keys_touched};

use crate::behind::{decided_in, is_heard, voted};
use crate::doings::Doings;
use crate::keys::{TxnId, txn_id};
use crate::places::{Claims, Standing};
use e3_readings::{copy_asked, key_of};
use e3_types::{List, Message, Name, NoMemory, NumOp, Packet, Record, Told, Txn};
use e3_world::Asked;

fn name_of(a: &Asked) -> Name
    ensures { result ≡ name_of a.now }
{
    key_of(&a.op).name.copy()
}

fn add_decided(r: &Record, out: &mut List<Txn>) -> Result<(), NoMemory>
    ensures { IfOk result (λ u. out.new ≡ out.old ++ decided_txns r.now) }
{
    match r {
        Record::Decision { txn, .. } => out.push(*txn),
        _ => Ok(()),
    }
}

fn add_told(e: &Told, out: &mut List<Txn>) -> Result<(), NoMemory>
    ensures { IfOk result (λ u. out.new ≡ out.old ++ told_txns e.now) }
{
    match e {
        Told::Op { txn, .. } => out.push(*txn),
        _ => Ok(()),
    }
}

fn add_sent(packet: &Packet, out: &mut List<Txn>) -> Result<(), NoMemory>
    ensures { IfOk result (λ u. out.new ≡ out.old ++ answered_txns packet.now) }
{
    match &packet.msg {
        Message::Done { txn, .. } => out.push(*txn),
        _ => Ok(()),
    }
}

fn add_all_decided(records: &[Record], out: &mut List<Txn>) -> Result<(), NoMemory>
    ensures { IfOk result (λ u. out.new ≡ out.old ++ flat_map decided_txns records.now) }
{
    for r in records {
        add_decided(r, out)?;
    }
    Ok(())
}

fn add_all_told(events: &[Told], out: &mut List<Txn>) -> Result<(), NoMemory>
    ensures { IfOk result (λ u. out.new ≡ out.old ++ flat_map told_txns events.now) }
{
    for e in events {
        add_told(e, out)?;
    }
    Ok(())
}

fn add_all_sent(outs: &[Packet], out: &mut List<Txn>) -> Result<(), NoMemory>
    ensures { IfOk result (λ u. out.new ≡ out.old ++ flat_map answered_txns outs.now) }
{
    for packet in outs {
        add_sent(packet, out)?;
    }
    Ok(())
}

fn reached(doings: &Doings<'_>) -> Result<List<Txn>, NoMemory>
    ensures { IfOk result (λ out. out ≡ reached doings.now.records.now doings.now.events.now doings.now.outs.now) }
{
    let mut out = List::new(doings.alloc);
    add_all_decided(doings.records, &mut out)?;
    add_all_told(doings.events, &mut out)?;
    add_all_sent(doings.outs, &mut out)?;
    Ok(out)
}

pub(crate) fn add_ops(t: &Txn, ops: &[NumOp], out: &mut List<Asked>) -> Result<(), NoMemory>
    ensures { IfOk result (λ u. out.new ≡ out.old ++ map (voted t.now) ops.now) }
{
    for o in ops {
        out.push(voted(t, o))?;
    }
    Ok(())
}

fn add_cast(r: &Record, out: &mut List<Asked>) -> Result<(), NoMemory>
    ensures { IfOk result (λ u. out.new ≡ out.old ++ cast_in r.now) }
{
    match r {
        Record::Vote { txn, ops } => add_ops(txn, ops.as_slice(), out),
        _ => Ok(()),
    }
}

fn add_all_cast(records: &[Record], out: &mut List<Asked>) -> Result<(), NoMemory>
    ensures { IfOk result (λ u. out.new ≡ out.old ++ cast_of records.now) }
{
    for r in records {
        add_cast(r, out)?;
    }
    Ok(())
}

// The operation that a step takes up, and those of its votes.
fn added(doings: &Doings<'_>) -> Result<List<Asked>, NoMemory>
    ensures { IfOk result (λ out. out ≡ added doings.now.new.now doings.now.records.now) }
{
    let new = doings.new;
    let mut out = List::new(doings.alloc);
    if let Some(s) = new {
        out.push(copy_asked(&s.asked))?;
    }
    add_all_cast(doings.records, &mut out)?;
    Ok(out)
}

fn add_moved(doings: &Doings<'_>, s: &Standing, out: &mut List<Name>) -> Result<(), NoMemory>
    ensures { IfOk result (λ u. out.new ≡ out.old ++ (if is_moved doings.now.records.now doings.now.events.now doings.now.outs.now s.now then name_of s.now.asked ∷ [] else [])) }
{
    if decided_in(doings.records, &s.asked.txn) || is_heard(doings.events, doings.outs, &s.asked) {
        out.push(name_of(&s.asked))?;
    }
    Ok(())
}

fn add_all_moved(
    doings: &Doings<'_>,
    standing: &[Standing],
    out: &mut List<Name>,
) -> Result<(), NoMemory>
    ensures { IfOk result (λ u. out.new ≡ out.old ++ map (λ s. name_of s.asked) (filter (is_moved doings.now.records.now doings.now.events.now doings.now.outs.now) standing.now)) }
{
    for s in standing {
        add_moved(doings, s, out)?;
    }
    Ok(())
}

fn add_ended(records: &[Record], a: &Asked, out: &mut List<Name>) -> Result<(), NoMemory>
    ensures { IfOk result (λ u. out.new ≡ out.old ++ (if decided_in records.now a.now.txn then name_of a.now ∷ [] else [])) }
{
    if decided_in(records, &a.txn) {
        out.push(name_of(a))?;
    }
    Ok(())
}

fn add_all_ended(records: &[Record], votes: &[Asked], out: &mut List<Name>) -> Result<(), NoMemory>
    ensures { IfOk result (λ u. out.new ≡ out.old ++ map name_of (filter (λ a. decided_in records.now a.txn) votes.now)) }
{
    for a in votes {
        add_ended(records, a, out)?;
    }
    Ok(())
}

fn add_moved_names(
    doings: &Doings<'_>,
    claims: &Claims,
    out: &mut List<Name>,
) -> Result<(), NoMemory>
    ensures { IfOk result (λ u. out.new ≡ out.old ++ moved_names doings.now.records.now doings.now.events.now doings.now.outs.now claims.now) }
{
    add_all_moved(doings, claims.standing.as_slice(), out)?;
    add_all_ended(doings.records, claims.votes.as_slice(), out)
}

fn add_names_of(doings: &Doings<'_>, t: &Txn, out: &mut List<Name>) -> Result<(), NoMemory>
    ensures { IfOk result (λ u. out.new ≡ out.old ++ moved_names doings.now.records.now doings.now.events.now doings.now.outs.now (claims_at doings.now.places.now.txns.entries (txn_id t.now))) }
{
    let places = doings.places;
    match places.txns.get(&txn_id(t)) {
        Some(claims) => add_moved_names(doings, claims, out),
        None => Ok(()),
    }
}

fn add_names_of_all(
    doings: &Doings<'_>,
    reached: &[Txn],
    out: &mut List<Name>,
) -> Result<(), NoMemory>
    ensures { IfOk result (λ u. out.new ≡ out.old ++ flat_map (λ t. moved_names doings.now.records.now doings.now.events.now doings.now.outs.now (claims_at doings.now.places.now.txns.entries (txn_id t))) reached.now) }
{
    for t in reached {
        add_names_of(doings, t, out)?;
    }
    Ok(())
}

fn add_names(asked: &[Asked], out: &mut List<Name>) -> Result<(), NoMemory>
    ensures { IfOk result (λ u. out.new ≡ out.old ++ map name_of asked.now) }
{
    for a in asked {
        out.push(name_of(a))?;
    }
    Ok(())
}

fn add_added_names(doings: &Doings<'_>, out: &mut List<Name>) -> Result<(), NoMemory>
    ensures { IfOk result (λ u. out.new ≡ out.old ++ map name_of (added doings.now.new.now doings.now.records.now)) }
{
    let asked = added(doings)?;
    add_names(asked.as_slice(), out)
}

fn add_reached_names(doings: &Doings<'_>, out: &mut List<Name>) -> Result<(), NoMemory>
    ensures { IfOk result (λ u. out.new ≡ out.old ++ flat_map (λ t. moved_names doings.now.records.now doings.now.events.now doings.now.outs.now (claims_at doings.now.places.now.txns.entries (txn_id t))) (reached doings.now.records.now doings.now.events.now doings.now.outs.now)) }
{
    let txns = reached(doings)?;
    add_names_of_all(doings, txns.as_slice(), out)
}

/// The names that a step touches, some of them more than once.
pub(crate) fn names_touched(doings: &Doings<'_>) -> Result<List<Name>, NoMemory>
    ensures { IfOk result (λ out. out ≡ names_touched doings.now.places.now.txns.entries doings.now.new.now doings.now.records.now doings.now.events.now doings.now.outs.now) }
{
    let mut out = List::new(doings.alloc);
    add_added_names(doings, &mut out)?;
    add_reached_names(doings, &mut out)?;
    Ok(out)
}

fn add_added_keys(doings: &Doings<'_>, out: &mut List<TxnId>) -> Result<(), NoMemory>
    ensures { IfOk result (λ u. out.new ≡ out.old ++ map (λ a. txn_id a.txn) (added doings.now.new.now doings.now.records.now)) }
{
    let asked = added(doings)?;
    for a in asked.as_slice() {
        out.push(txn_id(&a.txn))?;
    }
    Ok(())
}

fn add_reached_keys(doings: &Doings<'_>, out: &mut List<TxnId>) -> Result<(), NoMemory>
    ensures { IfOk result (λ u. out.new ≡ out.old ++ map txn_id (reached doings.now.records.now doings.now.events.now doings.now.outs.now)) }
{
    let txns = reached(doings)?;
    for t in txns.as_slice() {
        out.push(txn_id(t))?;
    }
    Ok(())
}

/// The transactions that a step touches, as keys, some of them more than once.
pub(crate) fn keys_touched(doings: &Doings<'_>) -> Result<List<TxnId>, NoMemory>
    ensures { IfOk result (λ out. out ≡ keys_touched doings.now.new.now doings.now.records.now doings.now.events.now doings.now.outs.now) }
{
    let mut out = List::new(doings.alloc);
    add_added_keys(doings, &mut out)?;
    add_reached_keys(doings, &mut out)?;
    Ok(out)
}
