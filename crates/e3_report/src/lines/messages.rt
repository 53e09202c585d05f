// The messages of sites, as a trace has them.
ghost use Rattle.std.specs.Prelude.{◌++◌};
ghost use Rattle.e3_report.specs.Pages.{Adds};
ghost use Rattle.e3_report.specs.lines.Messages.{txn_and_number, txn_and_call, txn_and_attempt, do_message, done_message, died_message, last_message, report_message, votereq_message, yes_text, vote_message, decide_message, message_text};

use crate::Page;
use crate::lines::inputs::push_operation;
use crate::lines::texts::{push_word_and_dir, push_word_and_state, push_word_and_txn};
use e3_types::{Answer, Call, Dir, Message, Op, State, Txn};

// Adds a word, and a transaction and a number behind it.
#[tactic(auto, unfolding(crate::specs::lines::Messages::txn_and_number))]
fn push_word_and_number(page: &mut Page, word: &str, txn: &Txn, n: u32)
    ensures { Adds page.old page.new (word.now ++ txn_and_number txn.now n) }
{
    push_word_and_txn(page, word, txn);
    page.labelled(" ", n as u64);
}

// Adds a word, and a transaction and the call of an election behind it.
#[tactic(auto, unfolding(crate::specs::lines::Messages::txn_and_call))]
fn push_word_and_call(page: &mut Page, word: &str, txn: &Txn, call: Call)
    ensures { Adds page.old page.new (word.now ++ txn_and_call txn.now call) }
{
    push_word_and_txn(page, word, txn);
    page.labelled(" ", call.inc as u64);
    page.labelled(" ", call.seq as u64);
}

// Adds a word, and a transaction, a number and a direction behind it.
#[tactic(auto, unfolding(crate::specs::lines::Messages::txn_and_attempt))]
fn push_word_and_attempt(page: &mut Page, word: &str, txn: &Txn, n: u32, dir: Dir)
    ensures { Adds page.old page.new (word.now ++ txn_and_attempt txn.now n dir) }
{
    push_word_and_number(page, word, txn, n);
    push_word_and_dir(page, " ", dir);
}

#[tactic(auto, unfolding(crate::specs::lines::Messages::do_message))]
fn push_do(page: &mut Page, txn: &Txn, n: u32, op: &Op)
    ensures { Adds page.old page.new (do_message txn.now n op.now) }
{
    push_word_and_number(page, "do ", txn, n);
    page.text(" ");
    push_operation(page, op);
}

#[tactic(auto, unfolding(crate::specs::lines::Messages::done_message))]
fn push_done(page: &mut Page, txn: &Txn, n: u32, inc: u32, answer: &Answer)
    ensures { Adds page.old page.new (done_message txn.now n inc answer.now) }
{
    push_word_and_number(page, "done ", txn, n);
    page.labelled(" ", inc as u64);
    page.text(" ");
    page.answer(answer);
}

#[tactic(auto, unfolding(crate::specs::lines::Messages::died_message))]
fn push_died(page: &mut Page, txn: &Txn, n: u32, older: &Txn)
    ensures { Adds page.old page.new (died_message txn.now n older.now) }
{
    push_word_and_number(page, "died ", txn, n);
    push_word_and_txn(page, " ", older);
}

#[tactic(auto, unfolding(crate::specs::lines::Messages::last_message))]
fn push_last(page: &mut Page, txn: &Txn, call: Call, elected: u32)
    ensures { Adds page.old page.new (last_message txn.now call elected) }
{
    push_word_and_call(page, "last ", txn, call);
    page.labelled(" ", elected as u64);
}

#[tactic(auto, unfolding(crate::specs::lines::Messages::report_message))]
fn push_report(page: &mut Page, txn: &Txn, n: u32, state: State, attempt: u32)
    ensures { Adds page.old page.new (report_message txn.now n state attempt) }
{
    push_word_and_number(page, "report ", txn, n);
    push_word_and_state(page, " ", state);
    page.labelled(" ", attempt as u64);
}

#[tactic(auto, unfolding(crate::specs::lines::Messages::votereq_message))]
fn push_votereq(page: &mut Page, txn: &Txn, inc: u32, count: u32)
    ensures { Adds page.old page.new (votereq_message txn.now inc count) }
{
    push_word_and_number(page, "votereq ", txn, inc);
    page.labelled(" ", count as u64);
}

#[tactic(auto, unfolding(crate::specs::lines::Messages::yes_text))]
fn push_yes(page: &mut Page, agreed: bool)
    ensures { Adds page.old page.new (yes_text agreed) }
{
    if agreed {
        page.text(" yes");
    } else {
        page.text(" no");
    }
}

#[tactic(auto, unfolding(crate::specs::lines::Messages::vote_message))]
fn push_vote(page: &mut Page, txn: &Txn, agreed: bool)
    ensures { Adds page.old page.new (vote_message txn.now agreed) }
{
    push_word_and_txn(page, "vote ", txn);
    push_yes(page, agreed);
}

#[tactic(auto, unfolding(crate::specs::lines::Messages::decide_message))]
fn push_decide(page: &mut Page, txn: &Txn, dir: Dir)
    ensures { Adds page.old page.new (decide_message txn.now dir) }
{
    push_word_and_txn(page, "decide ", txn);
    push_word_and_dir(page, " ", dir);
}

/// Adds a message.
#[tactic(auto, unfolding(crate::specs::lines::Messages::message_text))]
pub(crate) fn push_message(page: &mut Page, msg: &Message)
    ensures { Adds page.old page.new (message_text msg.now) }
{
    match msg {
        Message::Do { txn, n, op } => push_do(page, txn, *n, op),
        Message::Done {
            txn,
            n,
            inc,
            answer,
        } => push_done(page, txn, *n, *inc, answer),
        Message::Died { txn, n, older } => push_died(page, txn, *n, older),
        Message::Ask { txn, call } => push_word_and_call(page, "ask ", txn, *call),
        Message::LastElected { txn, call, elected } => push_last(page, txn, *call, *elected),
        Message::Elected { txn, n } => push_word_and_number(page, "elected ", txn, *n),
        Message::Report {
            txn,
            n,
            state,
            attempt,
        } => push_report(page, txn, *n, *state, *attempt),
        Message::VoteReq { txn, inc, count } => push_votereq(page, txn, *inc, *count),
        Message::Vote { txn, yes } => push_vote(page, txn, *yes),
        Message::Pre { txn, n, dir } => push_word_and_attempt(page, "pre ", txn, *n, *dir),
        Message::Ack { txn, n, dir } => push_word_and_attempt(page, "ack ", txn, *n, *dir),
        Message::Decide { txn, dir } => push_decide(page, txn, *dir),
    }
}
