// What steps tell, read behind what earlier lines tell.
ghost use Rattle.std.specs.Prelude.{◌≡◌, IfErr, codes};
ghost use Rattle.e3_trace.specs.Cuts.{Gives, behind, made_of};
ghost use Rattle.e3_trace.specs.Events.{of_of, verdict_of, refusal_by, refusal_of, event_by, event_of, told_by, told_of};
ghost use Rattle.e3_trace.specs.Fields.{txn_of};
ghost use Rattle.e3_types.specs.declared.entries.Told.TheVariants as told;

use crate::cuts::{SPACE, behind, cut};
use crate::faults::Fault;
use crate::fields::{Field, TxnName, sites, txn_from, txn_name};
use crate::known::Known;
use e3_report::lines::{is_text, one_of};
use e3_types::{Answer, Dir, Refusal, State, Told, Txn, Verdict};
use std::alloc::Global;

// A blocked group has more than a word.
const VERDICTS: [(&str, Verdict); 4] = [
    ("abort", Verdict::Abort),
    ("commit", Verdict::Commit),
    ("pre-commit", Verdict::PreCommit),
    ("pre-abort", Verdict::PreAbort),
];

const ENDS: [(&str, Dir); 2] = [("committed", Dir::Commit), ("aborted", Dir::Abort)];

/// Two numbers with `of` between them.
#[tactic(auto, unfolding(crate::specs::Events::of_of))]
pub(crate) fn of(text: &[u8]) -> Result<(u64, u64), Fault>
    ensures gives { Gives result (of_of text.now) }
    ensures sure { IfErr result (λ e. e ≡ Fault.Bad) }
{
    let (word, rest) = cut(text, SPACE)?;
    let some = u64::read(word)?;
    let rest = behind(rest, "of")?;
    let all = u64::read(rest)?;
    Ok((some, all))
}

/// What an elector concludes.
impl Field for Verdict {
    ghost form = { verdict_of };

    #[tactic(auto, unfolding(crate::specs::Events::verdict_of))]
    fn read(text: &[u8]) -> Result<Verdict, Fault> {
        if let Some(verdict) = one_of(text, &VERDICTS) {
            return Ok(verdict);
        }
        let rest = behind(text, "block")?;
        let (have, total) = of(rest)?;
        Ok(Verdict::Block { have, total })
    }
}

#[tactic(auto, unfolding(crate::specs::Events::refusal_by))]
fn refusal_by(known: &Known, verb: &[u8], text: &[u8]) -> Result<Refusal, Fault>
    ensures { Gives result (refusal_by known.now verb.now text.now) }
{
    if is_text(verb, "busy") {
        u32::read(text).map(|op| Refusal::Busy { op })
    } else if is_text(verb, "over") {
        Dir::read(text).map(|dir| Refusal::Over { dir })
    } else if is_text(verb, "died") {
        known.txn(text).map(|older| Refusal::Died { older })
    } else if is_text(verb, "doomed") {
        let (site, (had, now)) = <(u32, (u32, u32))>::read(text)?;
        Ok(Refusal::Doomed { site, had, now })
    } else if is_text(verb, "too-late") {
        u32::read(text).map(|attempt| Refusal::TooLate { attempt })
    } else {
        Err(Fault::Bad)
    }
}

#[tactic(auto, unfolding(crate::specs::Events::refusal_of))]
fn refusal(known: &Known, text: &[u8]) -> Result<Refusal, Fault>
    ensures { Gives result (refusal_of known.now text.now) }
{
    if is_text(text, "no-transaction") {
        Ok(Refusal::NoTxn)
    } else {
        let (verb, rest) = cut(text, SPACE)?;
        refusal_by(known, verb, rest)
    }
}

fn died(known: &Known, txn: Txn, text: &[u8]) -> Result<Told, Fault>
    ensures { Gives result (made_of (λ older. told.Died txn older) (behind (codes "for") (txn_of known.now)) text.now) }
{
    let rest = behind(text, "for")?;
    let older = known.txn(rest)?;
    Ok(Told::Died { txn, older })
}

#[tactic(auto, unfolding(crate::specs::Events::event_by))]
fn event_by(known: &Known, txn: Txn, verb: &[u8], text: &[u8]) -> Result<Told, Fault>
    ensures { Gives result (event_by known.now txn verb.now text.now) }
{
    if is_text(verb, "op") {
        <(u32, Answer)>::read(text).map(|(n, answer)| Told::Op { txn, n, answer })
    } else if is_text(verb, "died") {
        died(known, txn, text)
    } else if is_text(verb, "doomed") {
        <(u32, (u32, u32))>::read(text).map(|(site, (had, now))| Told::Doomed {
            txn,
            site,
            had,
            now,
        })
    } else if is_text(verb, "refused") {
        refusal(known, text).map(|refusal| Told::Refused { txn, refusal })
    } else if is_text(verb, "kept") {
        State::read(text).map(|state| Told::Kept { txn, state })
    } else if is_text(verb, "election") {
        <(u32, Verdict)>::read(text).map(|(n, verdict)| Told::Verdict { txn, n, verdict })
    } else {
        Err(Fault::Bad)
    }
}

#[tactic(auto, unfolding(crate::specs::Events::event_of))]
fn event(known: &Known, txn: Txn, text: &[u8]) -> Result<Told, Fault>
    ensures { Gives result (event_of known.now txn text.now) }
{
    if let Some(dir) = one_of(text, &ENDS) {
        return Ok(Told::Ended { txn, dir });
    }
    let (verb, rest) = cut(text, SPACE)?;
    event_by(known, txn, verb, rest)
}

// What is told of the transaction of this name: it begins here, or it began before.
#[tactic(auto, unfolding(crate::specs::Events::told_by, crate::specs::Events::began_of))]
fn told_by(alloc: Global, known: &Known, name: TxnName, text: &[u8]) -> Result<Told, Fault>
    ensures { Gives result (told_by known.now name text.now) }
{
    match behind(text, "began") {
        Ok(rest) => {
            let sites = sites(alloc, rest)?;
            let txn = txn_from(name, sites);
            Ok(Told::Began { txn })
        }
        Err(_) => match known.named(name) {
            Some(txn) => event(known, txn, text),
            None => Err(Fault::Bad),
        },
    }
}

/// What a step tells: the transaction's name, and what is told of it.
#[tactic(auto, unfolding(crate::specs::Events::told_of))]
pub(crate) fn told(alloc: Global, known: &Known, text: &[u8]) -> Result<Told, Fault>
    ensures { Gives result (told_of known.now text.now) }
{
    let (word, rest) = cut(text, SPACE)?;
    let name = txn_name(word)?;
    told_by(alloc, known, name, rest)
}
