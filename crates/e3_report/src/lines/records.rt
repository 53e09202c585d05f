// The lines of a log's records, and of a table's rows.
ghost use Rattle.std.specs.Prelude.{◌++◌, [], codes};
ghost use Rattle.std.specs.Fmt.{decimal};
ghost use Rattle.std.specs.List.{flat_map};
ghost use Rattle.e3_report.specs.Pages.{Adds};
ghost use Rattle.e3_report.specs.lines.Texts.{txn_text};
ghost use Rattle.e3_report.specs.lines.Records.{row_line, birth_row_line, birth_lines, read_line, write_line, op_line, vote_lines, inc_line, join_line, attempt_line, decision_line, record_lines};

use crate::Page;
use crate::lines::listed::{Lines, push_each};
use crate::lines::texts::{push_commas, push_word_and_bytes, push_word_and_dir, push_word_and_txn};
use e3_types::{Dir, Key, NumOp, Op, Record, Row, Txn};

impl Lines for Row {
    ghost lines = { row_line };

    #[tactic(auto, unfolding(crate::specs::lines::Records::row_line))]
    fn push(&self, page: &mut Page) {
        page.bytes(self.name.bytes());
        push_word_and_bytes(page, " ", self.val.bytes());
        page.line_end();
    }
}

impl Page {
    /// Adds a line for each row of a table.
    pub fn rows(&mut self, rows: &[Row])
        ensures { Adds self.old self.new (flat_map row_line rows.now) }
    {
        push_each(self, rows);
    }

    /// Adds the lines of records.
    pub fn records(&mut self, records: &[Record])
        ensures { Adds self.old self.new (flat_map (record_lines []) records.now) }
    {
        push_records(self, "", records);
    }
}

// Adds the mark, and a word with a number behind it.
fn push_mark_and_number(page: &mut Page, mark: &str, word: &str, n: u32)
    ensures { Adds page.old page.new (mark.now ++ word.now ++ decimal n) }
{
    page.text(mark);
    page.labelled(word, n as u64);
}

// Adds the mark, and a word with a number and the name of a key behind it.
fn push_mark_and_name(page: &mut Page, mark: &str, word: &str, n: u32, key: &Key)
    ensures { Adds page.old page.new (mark.now ++ word.now ++ decimal n ++ codes " " ++ key.now.name) }
{
    push_mark_and_number(page, mark, word, n);
    push_word_and_bytes(page, " ", key.name.bytes());
}

// Adds the mark, and a word with a transaction behind it.
fn push_mark_and_txn(page: &mut Page, mark: &str, word: &str, txn: &Txn)
    ensures { Adds page.old page.new (mark.now ++ word.now ++ txn_text txn.now) }
{
    page.text(mark);
    push_word_and_txn(page, word, txn);
}

#[tactic(auto, unfolding(crate::specs::lines::Records::birth_row_line))]
fn push_birth_row(page: &mut Page, mark: &str, row: &Row)
    ensures { Adds page.old page.new (birth_row_line mark.now row.now) }
{
    page.text(mark);
    page.text("row ");
    row.push(page);
}

fn push_birth_rows(page: &mut Page, mark: &str, rows: &[Row])
    ensures { Adds page.old page.new (flat_map (birth_row_line mark.now) rows.now) }
{
    for row in rows {
        push_birth_row(page, mark, row);
    }
}

#[tactic(auto, unfolding(crate::specs::lines::Records::birth_lines))]
fn push_birth(page: &mut Page, mark: &str, format: u32, weights: &[u32], rows: &[Row])
    ensures { Adds page.old page.new (birth_lines mark.now format weights.now rows.now) }
{
    push_mark_and_number(page, mark, "birth ", format);
    page.text(" ");
    push_commas(page, weights);
    page.line_end();
    push_birth_rows(page, mark, rows);
}

#[tactic(auto, unfolding(crate::specs::lines::Records::read_line))]
fn push_read(page: &mut Page, mark: &str, n: u32, key: &Key)
    ensures { Adds page.old page.new (read_line mark.now n key.now.name) }
{
    push_mark_and_name(page, mark, "read ", n, key);
    page.line_end();
}

fn push_write(page: &mut Page, mark: &str, n: u32, key: &Key, val: &[u8])
    ensures { Adds page.old page.new (write_line mark.now n key.now.name val.now) }
{
    push_mark_and_name(page, mark, "write ", n, key);
    push_word_and_bytes(page, " ", val);
    page.line_end();
}

#[tactic(auto, unfolding(crate::specs::lines::Records::op_line))]
fn push_op(page: &mut Page, mark: &str, op: &NumOp)
    ensures { Adds page.old page.new (op_line mark.now op.now) }
{
    match &op.op {
        Op::Read(key) => push_read(page, mark, op.n, key),
        Op::Write(key, val) => push_write(page, mark, op.n, key, val.bytes()),
    }
}

fn push_ops(page: &mut Page, mark: &str, ops: &[NumOp])
    ensures { Adds page.old page.new (flat_map (op_line mark.now) ops.now) }
{
    for op in ops {
        push_op(page, mark, op);
    }
}

#[tactic(auto, unfolding(crate::specs::lines::Records::vote_lines))]
fn push_vote(page: &mut Page, mark: &str, txn: &Txn, ops: &[NumOp])
    ensures { Adds page.old page.new (vote_lines mark.now txn.now ops.now) }
{
    push_mark_and_txn(page, mark, "vote ", txn);
    page.labelled(" ", ops.len() as u64);
    page.line_end();
    push_ops(page, mark, ops);
}

#[tactic(auto, unfolding(crate::specs::lines::Records::inc_line))]
fn push_inc(page: &mut Page, mark: &str, inc: u32)
    ensures { Adds page.old page.new (inc_line mark.now inc) }
{
    push_mark_and_number(page, mark, "inc ", inc);
    page.line_end();
}

#[tactic(auto, unfolding(crate::specs::lines::Records::join_line))]
fn push_join(page: &mut Page, mark: &str, txn: &Txn, n: u32)
    ensures { Adds page.old page.new (join_line mark.now txn.now n) }
{
    push_mark_and_txn(page, mark, "join ", txn);
    page.labelled(" ", n as u64);
    page.line_end();
}

#[tactic(auto, unfolding(crate::specs::lines::Records::attempt_line))]
fn push_attempt(page: &mut Page, mark: &str, txn: &Txn, n: u32, dir: Dir)
    ensures { Adds page.old page.new (attempt_line mark.now txn.now n dir) }
{
    push_mark_and_txn(page, mark, "attempt ", txn);
    page.labelled(" ", n as u64);
    push_word_and_dir(page, " ", dir);
    page.line_end();
}

#[tactic(auto, unfolding(crate::specs::lines::Records::decision_line))]
fn push_decision(page: &mut Page, mark: &str, txn: &Txn, dir: Dir)
    ensures { Adds page.old page.new (decision_line mark.now txn.now dir) }
{
    push_mark_and_txn(page, mark, "decision ", txn);
    push_word_and_dir(page, " ", dir);
    page.line_end();
}

#[tactic(auto, unfolding(crate::specs::lines::Records::record_lines))]
fn push_record(page: &mut Page, mark: &str, r: &Record)
    ensures { Adds page.old page.new (record_lines mark.now r.now) }
{
    match r {
        Record::Birth {
            format,
            weights,
            rows,
            ..
        } => push_birth(page, mark, *format, weights.as_slice(), rows.as_slice()),
        Record::Inc { inc } => push_inc(page, mark, *inc),
        Record::Vote { txn, ops } => push_vote(page, mark, txn, ops.as_slice()),
        Record::Join { txn, n } => push_join(page, mark, txn, *n),
        Record::Attempt { txn, n, dir } => push_attempt(page, mark, txn, *n, *dir),
        Record::Decision { txn, dir } => push_decision(page, mark, txn, *dir),
    }
}

/// Adds the lines of each record of a log, with the mark before each line.
pub(crate) fn push_records(page: &mut Page, mark: &str, log: &[Record])
    ensures { Adds page.old page.new (flat_map (record_lines mark.now) log.now) }
{
    for r in log {
        push_record(page, mark, r);
    }
}
