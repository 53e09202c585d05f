// The first lines of entries, read behind what earlier lines tell.
ghost use Rattle.std.specs.Prelude.{◌≡◌, [], IfErr, IfOk, codes};
ghost use Rattle.e3_trace.specs.Cuts.{made_of, pair_of, behind, Gives};
ghost use Rattle.e3_trace.specs.Drafts.{draft_of};
ghost use Rattle.e3_report.specs.lines.Marks.{space};
ghost use Rattle.e3_trace.specs.Entries.{full_and, why_and, why_of, kept_of, rise_of, kept_why_of, failed_rise_of, fall_of, step_of, whole_of, act_by, draft_by, form_of};
ghost use Rattle.e3_trace.specs.Fields.{u64_of};
ghost use Rattle.e3_trace.specs.Past.{knowing, sends};
ghost use Rattle.e3_trace.specs.declared.drafts.Head.TheVariants as head;
ghost use Rattle.e3_world.specs.Packets.{outs_of, sent};

use crate::cuts::{SPACE, behind, cut};
use crate::drafts::{Draft, Head};
use crate::events::of;
use crate::faults::Fault;
use crate::fields::{Field, parts};
use crate::inputs::input;
use crate::known::Known;
use crate::past::Past;
use e3_report::lines::is_text;
use e3_types::{Act, Why};
use std::alloc::Global;

/// The word `kept`.
impl Field for bool {
    ghost form = { kept_of };

    fn read(text: &[u8]) -> Result<bool, Fault> {
        if is_text(text, "kept") {
            Ok(true)
        } else {
            Err(Fault::Bad)
        }
    }
}

fn of_and<T: Field + Drop>(text: &[u8]) -> Result<(u64, T), Fault>
    ensures { Gives result (behind (codes "of") (pair_of space u64_of T.form) text.now) }
{
    let rest = behind(text, "of")?;
    <(u64, T)>::read(rest)
}

fn full_and<T: Field + Drop>(text: &[u8]) -> Result<(Why, T), Fault>
    ensures { Gives result (full_and T.form text.now) }
{
    let rest = behind(text, "full")?;
    let (word, rest) = cut(rest, SPACE)?;
    let need = u64::read(word)?;
    let (room, field) = of_and::<T>(rest)?;
    Ok((Why::Full { need, room }, field))
}

// Why a site fell, and a field behind.
fn why_and<T: Field + Drop>(text: &[u8]) -> Result<(Why, T), Fault>
    ensures { Gives result (why_and T.form text.now) }
{
    match behind(text, "fault") {
        Ok(rest) => {
            let field = T::read(rest)?;
            Ok((Why::Fault, field))
        }
        Err(_) => full_and::<T>(text),
    }
}

#[tactic(auto, unfolding(crate::specs::Entries::why_of, crate::specs::Events::of_of))]
fn why(text: &[u8]) -> Result<Why, Fault>
    ensures gives { Gives result (why_of text.now) }
    ensures sure { IfErr result (λ e. e ≡ Fault.Bad) }
{
    if is_text(text, "fault") {
        return Ok(Why::Fault);
    }
    let rest = behind(text, "full")?;
    let (need, room) = of(rest)?;
    Ok(Why::Full { need, room })
}

// A rise: its incarnation, and whether an open frame was kept.
#[tactic(auto, unfolding(crate::specs::Entries::rise_of))]
fn rise(text: &[u8]) -> Result<Act, Fault>
    ensures gives { Gives result (rise_of text.now) }
    ensures outs { IfOk result (λ a. outs_of a ≡ []) }
{
    match cut(text, SPACE) {
        Err(_) => {
            let inc = u32::read(text)?;
            Ok(Act::Rise { kept: false, inc })
        }
        Ok((word, rest)) => {
            let kept = bool::read(rest)?;
            let inc = u32::read(word)?;
            Ok(Act::Rise { kept, inc })
        }
    }
}

#[tactic(auto, unfolding(crate::specs::Entries::kept_why_of))]
fn kept_why(text: &[u8]) -> Result<(bool, Why), Fault>
    ensures { Gives result (kept_why_of text.now) }
{
    match why(text) {
        Ok(why) => Ok((false, why)),
        Err(_) => {
            let (why, kept) = why_and::<bool>(text)?;
            Ok((kept, why))
        }
    }
}

#[tactic(auto, unfolding(crate::specs::Entries::failed_rise_of))]
fn failed_rise(text: &[u8]) -> Result<Act, Fault>
    ensures gives { Gives result (failed_rise_of text.now) }
    ensures outs { IfOk result (λ a. outs_of a ≡ []) }
{
    let (word, rest) = cut(text, SPACE)?;
    let inc = u32::read(word)?;
    let (kept, why) = kept_why(rest)?;
    Ok(Act::RiseFall { kept, inc, why })
}

// An entry of one line.
#[tactic(auto, unfolding(crate::specs::Entries::act_by))]
fn act_by(alloc: Global, verb: &[u8], text: &[u8]) -> Result<Act, Fault>
    ensures gives { Gives result (act_by verb.now text.now) }
    ensures outs { IfOk result (λ a. outs_of a ≡ []) }
{
    if is_text(verb, "line") {
        let number = u32::read(text)?;
        Ok(Act::Line { number })
    } else if is_text(verb, "parts") {
        let parts = parts(alloc, text)?;
        Ok(Act::Parts { parts })
    } else if is_text(verb, "drop") {
        let packet = u64::read(text)?;
        Ok(Act::Drop { packet })
    } else if is_text(verb, "rise") {
        rise(text)
    } else if is_text(verb, "risefall") {
        failed_rise(text)
    } else {
        Err(Fault::Bad)
    }
}

// A step begins with its input.
fn step(alloc: Global, known: &Known, past: &Past, owner: u32, text: &[u8]) -> Result<Draft, Fault>
    ensures gives { Gives result (step_of (knowing known.now (sent past.now)) owner text.now) }
    ensures outs { IfOk result (λ d. sends d ≡ []) }
{
    let input = input(alloc, known, past, text)?;
    Ok(Draft::new(alloc, owner, Head::Step(input), 0))
}

// A fall begins with its cause, and how many inputs are due.
#[tactic(auto, unfolding(crate::specs::Entries::fall_of))]
fn fall(alloc: Global, owner: u32, text: &[u8]) -> Result<Draft, Fault>
    ensures gives { Gives result (made_of (λ p. draft_of owner (head.Fall p.0) p.1) fall_of text.now) }
    ensures outs { IfOk result (λ d. sends d ≡ []) }
{
    let (why, due) = why_and::<u64>(text)?;
    Ok(Draft::new(alloc, owner, Head::Fall(why), due))
}

// An entry that has no other line.
fn whole(alloc: Global, owner: u32, verb: &[u8], text: &[u8]) -> Result<Draft, Fault>
    ensures gives { Gives result (made_of (whole_of owner) (act_by verb.now) text.now) }
    ensures outs { IfOk result (λ d. sends d ≡ []) }
{
    let act = act_by(alloc, verb, text)?;
    Ok(Draft::new(alloc, owner, Head::Whole(act), 0))
}

#[tactic(auto, unfolding(crate::specs::Entries::draft_by))]
fn draft_by(
    alloc: Global,
    known: &Known,
    past: &Past,
    owner: u32,
    verb: &[u8],
    text: &[u8],
) -> Result<Draft, Fault>
    ensures gives { Gives result (draft_by (knowing known.now (sent past.now)) owner verb.now text.now) }
    ensures outs { IfOk result (λ d. sends d ≡ []) }
{
    if is_text(verb, "step") {
        step(alloc, known, past, owner, text)
    } else if is_text(verb, "fall") {
        fall(alloc, owner, text)
    } else {
        whole(alloc, owner, verb, text)
    }
}

/// The form of an entry of the owner. It has sent no packet yet.
#[tactic(auto, unfolding(crate::specs::Entries::form_of))]
pub(crate) fn form(
    alloc: Global,
    known: &Known,
    past: &Past,
    owner: u32,
    text: &[u8],
) -> Result<Draft, Fault>
    ensures gives { Gives result (form_of (knowing known.now (sent past.now)) owner text.now) }
    ensures outs { IfOk result (λ d. sends d ≡ []) }
{
    if is_text(text, "miss") {
        Ok(Draft::new(alloc, owner, Head::Whole(Act::Miss), 0))
    } else if is_text(text, "cut") {
        Ok(Draft::new(alloc, owner, Head::Whole(Act::Cut), 0))
    } else {
        let (verb, rest) = cut(text, SPACE)?;
        draft_by(alloc, known, past, owner, verb, rest)
    }
}
