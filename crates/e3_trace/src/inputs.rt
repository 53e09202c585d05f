// The inputs of sites, read behind what earlier lines tell.
ghost use Rattle.e3_trace.specs.Cuts.{made_of, pair_of, Gives};
ghost use Rattle.e3_report.specs.lines.Marks.{space};
ghost use Rattle.e3_trace.specs.Fields.{op_of, sent_of, sites_of, txn_of};
ghost use Rattle.e3_trace.specs.Inputs.{do_from, elect_from, input_by, input_of};
ghost use Rattle.e3_types.specs.declared.entries.Input.TheVariants as input;
ghost use Rattle.e3_trace.specs.Past.{knowing};
ghost use Rattle.e3_world.specs.Packets.{sent};

use crate::cuts::{SPACE, cut};
use crate::faults::Fault;
use crate::fields::sites;
use crate::known::Known;
use crate::past::Past;
use e3_report::lines::is_text;
use e3_types::{Input, Op};
use std::alloc::Global;

fn begin(alloc: Global, text: &[u8]) -> Result<Input, Fault>
    ensures { Gives result (made_of input.Begin sites_of text.now) }
{
    let sites = sites(alloc, text)?;
    Ok(Input::Begin { sites })
}

fn call(known: &Known, text: &[u8]) -> Result<Input, Fault>
    ensures { Gives result (made_of do_from (pair_of space (txn_of known.now) op_of) text.now) }
{
    let (txn, op) = known.txn_and::<Op>(text)?;
    Ok(Input::Do { txn, op })
}

fn commit(known: &Known, text: &[u8]) -> Result<Input, Fault>
    ensures { Gives result (made_of input.Commit (txn_of known.now) text.now) }
{
    let txn = known.txn(text)?;
    Ok(Input::Commit { txn })
}

fn cancel(known: &Known, text: &[u8]) -> Result<Input, Fault>
    ensures { Gives result (made_of input.Cancel (txn_of known.now) text.now) }
{
    let txn = known.txn(text)?;
    Ok(Input::Cancel { txn })
}

fn expire(known: &Known, text: &[u8]) -> Result<Input, Fault>
    ensures { Gives result (made_of input.Expire (txn_of known.now) text.now) }
{
    let txn = known.txn(text)?;
    Ok(Input::Expire { txn })
}

fn elect(alloc: Global, known: &Known, text: &[u8]) -> Result<Input, Fault>
    ensures { Gives result (made_of elect_from (pair_of space (txn_of known.now) sites_of) text.now) }
{
    let (word, rest) = cut(text, SPACE)?;
    let txn = known.txn(word)?;
    let group = sites(alloc, rest)?;
    Ok(Input::Elect { txn, group })
}

#[tactic(auto, unfolding(crate::specs::Fields::sent_of, crate::specs::Fields::packet_at))]
fn deliver(_known: &Known, past: &Past, text: &[u8]) -> Result<Input, Fault>
    ensures { Gives result (made_of input.Deliver (sent_of (knowing _known.now (sent past.now))) text.now) }
{
    let packet = past.packet(text)?;
    Ok(Input::Deliver { packet })
}

#[tactic(auto, unfolding(crate::specs::Inputs::input_by, crate::specs::Fields::txn_of, crate::specs::Fields::named))]
fn input_by(
    alloc: Global,
    known: &Known,
    past: &Past,
    verb: &[u8],
    text: &[u8],
) -> Result<Input, Fault>
    ensures { Gives result (input_by (knowing known.now (sent past.now)) verb.now text.now) }
{
    if is_text(verb, "begin") {
        begin(alloc, text)
    } else if is_text(verb, "do") {
        call(known, text)
    } else if is_text(verb, "commit") {
        commit(known, text)
    } else if is_text(verb, "cancel") {
        cancel(known, text)
    } else if is_text(verb, "expire") {
        expire(known, text)
    } else if is_text(verb, "elect") {
        elect(alloc, known, text)
    } else if is_text(verb, "deliver") {
        deliver(known, past, text)
    } else {
        Err(Fault::Bad)
    }
}

/// An input. A packet that is delivered is named by its number, and stands in the entries that are read.
#[tactic(auto, unfolding(crate::specs::Inputs::input_of))]
pub(crate) fn input(alloc: Global, known: &Known, past: &Past, text: &[u8]) -> Result<Input, Fault>
    ensures { Gives result (input_of (knowing known.now (sent past.now)) text.now) }
{
    let (verb, rest) = cut(text, SPACE)?;
    input_by(alloc, known, past, verb, rest)
}
