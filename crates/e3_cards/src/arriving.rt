// The operations of a transaction that came to the site, and their answers, behind one more step.
ghost use Rattle.std.specs.Prelude.{◌≡◌, ◌<◌, ◌++◌, IfOk};
ghost use Rattle.e3_cards.specs.Arriving.{came_by, mine, taken_of, heard_told, heard_sent, heard_in};

use crate::card::Heard;
use crate::seen::{Seen, seen_state};
use e3_readings::{brought, is_new_to};
use e3_types::{Input, List, Message, NoMemory, Packet, Told, Txn};
use e3_world::Asked;

// The operation, where it is this transaction's.
fn mine(t: &Txn, taken: Option<Asked>) -> Option<Asked>
    ensures { result ≡ mine t.now taken }
{
    match taken {
        Some(a) => { if t.is_same(&a.txn) { Some(a) } else { None } }
        None => None,
    }
}

/// The operation of the transaction that a step takes up at its site, where so many of it were issued before.
pub(crate) fn taken_of(
    site: u32,
    t: &Txn,
    count: u64,
    input: &Input,
    events: &[Told],
) -> Option<Asked>
    requires { count < 4294967295 }
    ensures { result ≡ taken_of site t.now count input.now events.now }
{
    mine(t, brought(site, count, input, events))
}

/// Adds the operation that is taken up, where the transaction is in q and it did not come before.
pub(crate) fn add_came(
    s: &Seen,
    taken: Option<Asked>,
    came: &mut List<Asked>,
) -> Result<(), NoMemory>
    ensures { IfOk result (λ u. came.new ≡ came_by s.now came.old taken) }
{
    match taken {
        Some(a) => {
            if is_new_to(seen_state(s), came.as_slice(), &a) {
                came.push(a)
            } else {
                Ok(())
            }
        }
        None => Ok(()),
    }
}

fn hear_told(t: &Txn, e: &Told, out: &mut List<Heard>) -> Result<(), NoMemory>
    ensures { IfOk result (λ u. out.new ≡ out.old ++ heard_told t.now e.now) }
{
    match e {
        Told::Op { txn, n, answer } if t.is_same(txn) => out.push(Heard {
            n: *n,
            answer: answer.copy(),
        }),
        _ => Ok(()),
    }
}

fn hear_sent(t: &Txn, packet: &Packet, out: &mut List<Heard>) -> Result<(), NoMemory>
    ensures { IfOk result (λ u. out.new ≡ out.old ++ heard_sent t.now packet.now) }
{
    match &packet.msg {
        Message::Done { txn, n, answer, .. } if t.is_same(txn) => out.push(Heard {
            n: *n,
            answer: answer.copy(),
        }),
        _ => Ok(()),
    }
}

/// Adds the answers that a step shows.
pub(crate) fn add_heard(
    t: &Txn,
    events: &[Told],
    outs: &[Packet],
    out: &mut List<Heard>,
) -> Result<(), NoMemory>
    ensures { IfOk result (λ u. out.new ≡ out.old ++ heard_in t.now events.now outs.now) }
{
    for e in events {
        hear_told(t, e, out)?;
    }
    for packet in outs {
        hear_sent(t, packet, out)?;
    }
    Ok(())
}
