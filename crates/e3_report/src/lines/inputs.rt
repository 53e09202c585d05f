// The inputs of sites, as a trace has them.
ghost use Rattle.e3_report.specs.Pages.{Adds};
ghost use Rattle.e3_report.specs.lines.Inputs.{operation_text, do_input, elect_input, input_text};

use crate::Page;
use crate::lines::texts::{
    push_word_and_bytes, push_word_and_key, push_word_and_sites, push_word_and_txn,
};
use e3_types::{Input, Op, SiteSet, Txn};

/// Adds an operation.
#[tactic(auto, unfolding(crate::specs::lines::Inputs::operation_text))]
pub(crate) fn push_operation(page: &mut Page, op: &Op)
    ensures { Adds page.old page.new (operation_text op.now) }
{
    match op {
        Op::Read(key) => push_word_and_key(page, "read ", key),
        Op::Write(key, val) => {
            push_word_and_key(page, "write ", key);
            push_word_and_bytes(page, " ", val.bytes());
        }
    }
}

#[tactic(auto, unfolding(crate::specs::lines::Inputs::do_input))]
fn push_do(page: &mut Page, txn: &Txn, op: &Op)
    ensures { Adds page.old page.new (do_input txn.now op.now) }
{
    push_word_and_txn(page, "do ", txn);
    page.text(" ");
    push_operation(page, op);
}

#[tactic(auto, unfolding(crate::specs::lines::Inputs::elect_input))]
fn push_elect(page: &mut Page, txn: &Txn, group: SiteSet)
    ensures { Adds page.old page.new (elect_input txn.now group) }
{
    push_word_and_txn(page, "elect ", txn);
    push_word_and_sites(page, " ", group);
}

/// Adds an input.
#[tactic(auto, unfolding(crate::specs::lines::Inputs::input_text, crate::specs::lines::Inputs::begin_input))]
pub(crate) fn push_input(page: &mut Page, input: &Input)
    ensures { Adds page.old page.new (input_text input.now) }
{
    match input {
        Input::Begin { sites } => push_word_and_sites(page, "begin ", *sites),
        Input::Do { txn, op } => push_do(page, txn, op),
        Input::Commit { txn } => push_word_and_txn(page, "commit ", txn),
        Input::Cancel { txn } => push_word_and_txn(page, "cancel ", txn),
        Input::Expire { txn } => push_word_and_txn(page, "expire ", txn),
        Input::Elect { txn, group } => push_elect(page, txn, *group),
        Input::Deliver { packet } => page.labelled("deliver ", packet.number),
    }
}
