// The lines of records, read behind what earlier lines tell.
ghost use Rattle.std.specs.Prelude.{◌≡◌, OnOk};
ghost use Rattle.e3_trace.specs.Cuts.{Gives, Leaves};
ghost use Rattle.e3_trace.specs.Drafts.{row_of, with_row, vote_op_of, with_op, birth_of, votes_of, record_by, first_by, with_record_line};
ghost use Rattle.e3_trace.specs.Past.{SameOuts};

use crate::cuts::{SPACE, cut};
use crate::drafts::{Draft, Growing};
use crate::faults::Fault;
use crate::fields::{Field, numbers};
use crate::known::Known;
use crate::spare::add;
use e3_report::lines::is_text;
use e3_types::{Dir, Key, List, Name, NumOp, Op, Record, Row, Val};
use std::alloc::Global;

#[tactic(auto, unfolding(crate::specs::Drafts::row_of))]
fn row(text: &[u8]) -> Result<Row, Fault>
    ensures { Gives result (row_of text.now) }
{
    let (name, val) = <(Name, Val)>::read(text)?;
    Ok(Row { name, val })
}

#[tactic(auto, unfolding(crate::specs::Drafts::with_row))]
fn add_row(alloc: Global, draft: &mut Draft, text: &[u8]) -> Result<(), Fault>
    ensures same { OnOk result (SameOuts draft.old draft.new × (draft.new.due ≡ draft.old.due)) }
    ensures leaves { Leaves result draft.new (with_row draft.old text.now) }
{
    match &mut draft.growing {
        Growing::Birth { rows, .. } => {
            let row = row(text)?;
            add(alloc, rows, row)?;
            Ok(())
        }
        _ => Err(Fault::Bad),
    }
}

// An operation of a vote. The site is the log's own.
#[tactic(auto, unfolding(crate::specs::Drafts::vote_op_of, crate::specs::Drafts::vote_op_by))]
fn vote_op(site: u32, text: &[u8]) -> Result<NumOp, Fault>
    ensures { Gives result (vote_op_of site text.now) }
{
    let (verb, rest) = cut(text, SPACE)?;
    if is_text(verb, "read") {
        let (n, name) = <(u32, Name)>::read(rest)?;
        let op = Op::Read(Key { site, name });
        Ok(NumOp { n, op })
    } else if is_text(verb, "write") {
        let (n, (name, val)) = <(u32, (Name, Val))>::read(rest)?;
        let op = Op::Write(Key { site, name }, val);
        Ok(NumOp { n, op })
    } else {
        Err(Fault::Bad)
    }
}

#[tactic(auto, unfolding(crate::specs::Drafts::with_op))]
fn add_op(alloc: Global, draft: &mut Draft, text: &[u8]) -> Result<(), Fault>
    ensures same { OnOk result (SameOuts draft.old draft.new × (draft.new.due ≡ draft.old.due)) }
    ensures leaves { Leaves result draft.new (with_op draft.old text.now) }
{
    let site = draft.owner;
    match &mut draft.growing {
        Growing::Vote { ops, due, .. } => {
            let op = vote_op(site, text)?;
            add(alloc, ops, op)?;
            *due = due.saturating_sub(1);
            Ok(())
        }
        _ => Err(Fault::Bad),
    }
}

#[tactic(auto, unfolding(crate::specs::Drafts::birth_of))]
fn birth(alloc: Global, text: &[u8]) -> Result<Growing, Fault>
    ensures { Gives result (birth_of text.now) }
{
    let (word, rest) = cut(text, SPACE)?;
    let format = u32::read(word)?;
    let weights = numbers(alloc, rest)?;
    Ok(Growing::Birth {
        format,
        weights,
        rows: List::new(alloc),
    })
}

#[tactic(auto, unfolding(crate::specs::Drafts::votes_of))]
fn vote(alloc: Global, known: &Known, text: &[u8]) -> Result<Growing, Fault>
    ensures { Gives result (votes_of known.now text.now) }
{
    let (txn, due) = known.txn_and::<u64>(text)?;
    Ok(Growing::Vote {
        txn,
        ops: List::new(alloc),
        due,
    })
}

// A record of one line.
#[tactic(auto, unfolding(crate::specs::Drafts::record_by))]
fn record_by(known: &Known, verb: &[u8], text: &[u8]) -> Result<Record, Fault>
    ensures { Gives result (record_by known.now verb.now text.now) }
{
    if is_text(verb, "inc") {
        let inc = u32::read(text)?;
        Ok(Record::Inc { inc })
    } else if is_text(verb, "join") {
        let (txn, n) = known.txn_and::<u32>(text)?;
        Ok(Record::Join { txn, n })
    } else if is_text(verb, "attempt") {
        let (txn, (n, dir)) = known.txn_and::<(u32, Dir)>(text)?;
        Ok(Record::Attempt { txn, n, dir })
    } else if is_text(verb, "decision") {
        let (txn, dir) = known.txn_and::<Dir>(text)?;
        Ok(Record::Decision { txn, dir })
    } else {
        Err(Fault::Bad)
    }
}

#[tactic(auto, unfolding(crate::specs::Drafts::first_by))]
fn add_first(
    alloc: Global,
    known: &Known,
    draft: &mut Draft,
    verb: &[u8],
    text: &[u8],
) -> Result<(), Fault>
    ensures same { OnOk result (SameOuts draft.old draft.new × (draft.new.due ≡ draft.old.due)) }
    ensures leaves { Leaves result draft.new (first_by known.now draft.old verb.now text.now) }
{
    if is_text(verb, "row") {
        add_row(alloc, draft, text)
    } else if is_text(verb, "birth") {
        let growing = birth(alloc, text)?;
        draft.grow(alloc, growing)?;
        Ok(())
    } else if is_text(verb, "vote") {
        let growing = vote(alloc, known, text)?;
        draft.grow(alloc, growing)?;
        Ok(())
    } else {
        let record = record_by(known, verb, text)?;
        draft.add_record(alloc, record)?;
        Ok(())
    }
}

/// A line of a record, `r LINE`: an operation of the vote that has some due, or else the first of a record, or a row.
#[tactic(auto, unfolding(crate::specs::Drafts::with_record_line, crate::specs::Drafts::first_of))]
pub(crate) fn add_record_line(
    alloc: Global,
    known: &Known,
    draft: &mut Draft,
    text: &[u8],
) -> Result<(), Fault>
    ensures same { OnOk result (SameOuts draft.old draft.new × (draft.new.due ≡ draft.old.due)) }
    ensures leaves { Leaves result draft.new (with_record_line known.now draft.old text.now) }
{
    if !draft.takes_records() {
        return Err(Fault::Bad);
    }
    if 0 < draft.ops_due() {
        return add_op(alloc, draft, text);
    }
    let (verb, rest) = cut(text, SPACE)?;
    add_first(alloc, known, draft, verb, rest)
}
