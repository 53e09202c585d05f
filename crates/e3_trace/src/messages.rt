// The messages of sites, read behind what earlier lines tell. Reading one takes no memory of its own.
ghost use Rattle.e3_trace.specs.Cuts.{pair_of, Gives};
ghost use Rattle.e3_report.specs.lines.Marks.{space};
ghost use Rattle.e3_trace.specs.Fields.{u32_of, txn_of};
ghost use Rattle.e3_trace.specs.Messages.{yes_of, died_of, vote_of, deciding_by, message_by, message_of};

use crate::cuts::{SPACE, cut};
use crate::faults::Fault;
use crate::fields::Field;
use crate::known::Known;
use e3_report::lines::{is_text, one_of};
use e3_types::{Answer, Call, Dir, Message, Op, State, Txn};

fn number_and_txn(known: &Known, text: &[u8]) -> Result<(u32, Txn), Fault>
    ensures { Gives result (pair_of space u32_of (txn_of known.now) text.now) }
{
    let (word, rest) = cut(text, SPACE)?;
    let n = u32::read(word)?;
    let txn = known.txn(rest)?;
    Ok((n, txn))
}

#[tactic(auto, unfolding(crate::specs::Messages::died_of))]
fn died(known: &Known, text: &[u8]) -> Result<Message, Fault>
    ensures { Gives result (died_of known.now text.now) }
{
    let (word, rest) = cut(text, SPACE)?;
    let txn = known.txn(word)?;
    let (n, older) = number_and_txn(known, rest)?;
    Ok(Message::Died { txn, n, older })
}

fn yes(text: &[u8]) -> Result<bool, Fault>
    ensures { Gives result (yes_of text.now) }
{
    one_of(text, &[("yes", true), ("no", false)]).ok_or(Fault::Bad)
}

#[tactic(auto, unfolding(crate::specs::Messages::vote_of))]
fn vote(known: &Known, text: &[u8]) -> Result<Message, Fault>
    ensures { Gives result (vote_of known.now text.now) }
{
    let (word, rest) = cut(text, SPACE)?;
    let txn = known.txn(word)?;
    let yes = yes(rest)?;
    Ok(Message::Vote { txn, yes })
}

// A message of an election or of a decision.
#[tactic(auto, unfolding(crate::specs::Messages::deciding_by, crate::specs::Messages::ask_of, crate::specs::Messages::last_of, crate::specs::Messages::elected_of, crate::specs::Messages::site_report_of, crate::specs::Messages::ack_of, crate::specs::Messages::decide_of))]
fn deciding_by(known: &Known, verb: &[u8], text: &[u8]) -> Result<Message, Fault>
    ensures { Gives result (deciding_by known.now verb.now text.now) }
{
    if is_text(verb, "ask") {
        known.txn_and::<(u32, u32)>(text).map(|(txn, (inc, seq))| Message::Ask {
            txn,
            call: Call { inc, seq },
        })
    } else if is_text(verb, "last") {
        known.txn_and::<(u32, (u32, u32))>(text).map(|(
            txn,
            (inc, (seq, elected)),
        )| Message::LastElected {
            txn,
            call: Call { inc, seq },
            elected,
        })
    } else if is_text(verb, "elected") {
        known
            .txn_and::<u32>(text)
            .map(|(txn, n)| Message::Elected { txn, n })
    } else if is_text(verb, "report") {
        known.txn_and::<(u32, (State, u32))>(text).map(|(
            txn,
            (n, (state, attempt)),
        )| Message::Report {
            txn,
            n,
            state,
            attempt,
        })
    } else if is_text(verb, "ack") {
        known
            .txn_and::<(u32, Dir)>(text)
            .map(|(txn, (n, dir))| Message::Ack { txn, n, dir })
    } else if is_text(verb, "decide") {
        known
            .txn_and::<Dir>(text)
            .map(|(txn, dir)| Message::Decide { txn, dir })
    } else {
        Err(Fault::Bad)
    }
}

#[tactic(auto, unfolding(crate::specs::Messages::message_by, crate::specs::Messages::do_of, crate::specs::Messages::done_of, crate::specs::Messages::votereq_of, crate::specs::Messages::pre_of))]
fn message_by(known: &Known, verb: &[u8], text: &[u8]) -> Result<Message, Fault>
    ensures { Gives result (message_by known.now verb.now text.now) }
{
    if is_text(verb, "do") {
        let (txn, (n, op)) = known.txn_and::<(u32, Op)>(text)?;
        Ok(Message::Do { txn, n, op })
    } else if is_text(verb, "done") {
        let (txn, (n, (inc, answer))) = known.txn_and::<(u32, (u32, Answer))>(text)?;
        Ok(Message::Done {
            txn,
            n,
            inc,
            answer,
        })
    } else if is_text(verb, "died") {
        died(known, text)
    } else if is_text(verb, "votereq") {
        let (txn, (inc, count)) = known.txn_and::<(u32, u32)>(text)?;
        Ok(Message::VoteReq { txn, inc, count })
    } else if is_text(verb, "vote") {
        vote(known, text)
    } else if is_text(verb, "pre") {
        let (txn, (n, dir)) = known.txn_and::<(u32, Dir)>(text)?;
        Ok(Message::Pre { txn, n, dir })
    } else {
        deciding_by(known, verb, text)
    }
}

/// A message.
#[tactic(auto, unfolding(crate::specs::Messages::message_of))]
pub(crate) fn message(known: &Known, text: &[u8]) -> Result<Message, Fault>
    ensures { Gives result (message_of known.now text.now) }
{
    let (verb, rest) = cut(text, SPACE)?;
    message_by(known, verb, rest)
}
