// The operations that a coordinator issued, behind one more step.
ghost use Rattle.std.specs.Prelude.{◌≡◌, ◌++◌, ◌∷◌, [], if◌then◌else◌, IfOk};
ghost use Rattle.std.specs.List.{flat_map};
ghost use Rattle.e3_cards.specs.Issued.{number_told, counted_with, counted_in};

use crate::card::Counted;
use e3_readings::tells_own;
use e3_types::{Input, List, Message, NoMemory, Told, Txn};

fn add_number(t: &Txn, e: &Told, out: &mut List<u32>) -> Result<(), NoMemory>
    ensures { IfOk result (λ u. out.new ≡ out.old ++ number_told t.now e.now) }
{
    match e {
        Told::Op { txn, n, .. } if t.is_same(txn) => out.push(*n),
        _ => Ok(()),
    }
}

/// Adds the numbers of the operations whose answers these events tell.
pub(crate) fn add_numbers(t: &Txn, events: &[Told], out: &mut List<u32>) -> Result<(), NoMemory>
    ensures { IfOk result (λ u. out.new ≡ out.old ++ flat_map (number_told t.now) events.now) }
{
    for e in events {
        add_number(t, e, out)?;
    }
    Ok(())
}

fn add_if(counts: bool, c: Counted, out: &mut List<Counted>) -> Result<(), NoMemory>
    ensures { IfOk result (λ u. out.new ≡ out.old ++ (if counts then c ∷ [] else [])) }
{
    if counts { out.push(c) } else { Ok(()) }
}

fn add_done(
    t: &Txn,
    events: &[Told],
    f: u32,
    msg: &Message,
    out: &mut List<Counted>,
) -> Result<(), NoMemory>
    ensures { IfOk result (λ u. out.new ≡ out.old ++ counted_with t.now events.now f msg.now) }
{
    match msg {
        Message::Done { txn, n, inc, .. } => {
            let counts = tells_own(t, txn, *n, events);
            let c = Counted { site: f, inc: *inc };
            add_if(counts, c, out)
        }
        _ => Ok(()),
    }
}

/// Adds the answer of another site that counts with a step, if there is one.
pub(crate) fn add_counted(
    t: &Txn,
    input: &Input,
    events: &[Told],
    out: &mut List<Counted>,
) -> Result<(), NoMemory>
    ensures { IfOk result (λ u. out.new ≡ out.old ++ counted_in t.now input.now events.now) }
{
    match input {
        Input::Deliver { packet } => add_done(t, events, packet.from, &packet.msg, out),
        _ => Ok(()),
    }
}
