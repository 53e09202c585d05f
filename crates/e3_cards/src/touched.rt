// Which cards a step may change.
ghost use Rattle.std.specs.Prelude.{◌≡◌, IfOk, fold};
ghost use Rattle.std.specs.List.{flat_map, list_any};
ghost use Rattle.e3_types.specs.Same.{same_txn};
ghost use Rattle.e3_world.specs.Items.{txn_of_record};
ghost use Rattle.e3_world.specs.Sound.{txn_in};
ghost use Rattle.e3_readings.specs.Answering.{answered_txns};
ghost use Rattle.e3_cards.specs.Tables.{touched, add_once, input_txns, told_txns};

use e3_readings::txn_of_record;
use e3_types::{Input, List, Message, NoMemory, Packet, Record, Told, Txn};
use e3_world::SiteStep;
use std::alloc::Global;

fn txn_in(msg: &Message) -> Txn
    ensures { result ≡ txn_in msg.now }
{
    match msg {
        Message::Do { txn, .. }
        | Message::Done { txn, .. }
        | Message::Died { txn, .. }
        | Message::Ask { txn, .. }
        | Message::LastElected { txn, .. }
        | Message::Elected { txn, .. }
        | Message::Report { txn, .. }
        | Message::VoteReq { txn, .. }
        | Message::Vote { txn, .. }
        | Message::Pre { txn, .. }
        | Message::Ack { txn, .. }
        | Message::Decide { txn, .. } => *txn,
    }
}

fn is_among(t: &Txn, txns: &[Txn]) -> bool
    ensures { result ≡ list_any (same_txn t.now) txns.now }
{
    txns.iter().any(|u| t.is_same(u))
}

fn add_once(t: &Txn, out: &mut List<Txn>) -> Result<(), NoMemory>
    ensures { IfOk result (λ u. out.new ≡ add_once out.old t.now) }
{
    if is_among(t, out.as_slice()) {
        Ok(())
    } else {
        out.push(*t)
    }
}

fn add_input(input: &Input, out: &mut List<Txn>) -> Result<(), NoMemory>
    ensures { IfOk result (λ u. out.new ≡ fold add_once out.old (input_txns input.now)) }
{
    match input {
        Input::Begin { .. } => Ok(()),
        Input::Do { txn, .. }
        | Input::Commit { txn }
        | Input::Cancel { txn }
        | Input::Expire { txn }
        | Input::Elect { txn, .. } => add_once(txn, out),
        Input::Deliver { packet } => add_once(&txn_in(&packet.msg), out),
    }
}

fn add_record(r: &Record, out: &mut List<Txn>) -> Result<(), NoMemory>
    ensures { IfOk result (λ u. out.new ≡ fold add_once out.old (txn_of_record r.now)) }
{
    match txn_of_record(r) {
        Some(t) => add_once(t, out),
        None => Ok(()),
    }
}

fn add_told(e: &Told, out: &mut List<Txn>) -> Result<(), NoMemory>
    ensures { IfOk result (λ u. out.new ≡ fold add_once out.old (told_txns e.now)) }
{
    match e {
        Told::Op { txn, .. }
        | Told::Died { txn, .. }
        | Told::Doomed { txn, .. }
        | Told::Verdict { txn, .. } => add_once(txn, out),
        _ => Ok(()),
    }
}

fn add_sent(packet: &Packet, out: &mut List<Txn>) -> Result<(), NoMemory>
    ensures { IfOk result (λ u. out.new ≡ fold add_once out.old (answered_txns packet.now)) }
{
    match &packet.msg {
        Message::Done { txn, .. } => add_once(txn, out),
        _ => Ok(()),
    }
}

fn add_records(records: &[Record], out: &mut List<Txn>) -> Result<(), NoMemory>
    ensures { IfOk result (λ u. out.new ≡ fold add_once out.old (flat_map txn_of_record records.now)) }
{
    for r in records {
        add_record(r, out)?;
    }
    Ok(())
}

fn add_events(events: &[Told], out: &mut List<Txn>) -> Result<(), NoMemory>
    ensures { IfOk result (λ u. out.new ≡ fold add_once out.old (flat_map told_txns events.now)) }
{
    for e in events {
        add_told(e, out)?;
    }
    Ok(())
}

fn add_packets(outs: &[Packet], out: &mut List<Txn>) -> Result<(), NoMemory>
    ensures { IfOk result (λ u. out.new ≡ fold add_once out.old (flat_map answered_txns outs.now)) }
{
    for packet in outs {
        add_sent(packet, out)?;
    }
    Ok(())
}

/// The transactions whose cards a step may change, each once.
pub(crate) fn touched(alloc: Global, step: &SiteStep) -> Result<List<Txn>, NoMemory>
    ensures { IfOk result (λ out. out ≡ touched step.now) }
{
    let mut out = List::new(alloc);
    add_input(&step.input, &mut out)?;
    add_records(step.records.as_slice(), &mut out)?;
    add_events(step.told.as_slice(), &mut out)?;
    add_packets(step.outs.as_slice(), &mut out)?;
    Ok(out)
}
