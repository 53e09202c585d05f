// Records of a site: what is read of them, what a transaction reads behind its own writes, and what its commit installs.
//
// A line of the input is `born` with the rows that a table is born with, and pieces: `begin:N` begins the n-th transaction in
// place of the one before, of which the first stands at first; `N:read:NAME` and `N:write:NAME:VALUE` are its operations;
// `reads` is what it reads, behind the numbers of its operations, and `values` what the table has; `commit` installs its writes.
ghost use Rattle.std.specs.Prelude.{◌≡◌, nat_lt};
ghost use Rattle.std.specs.List.{list_all};

use crate::texts::{cut, letter_of, parts_of, push_text, small, txn_of};
use e3_report::Page;
use e3_tables::{Tables, Workspace};
use e3_types::{Key, List, Name, NumOp, Op, Row, SiteSet, Val};
use std::alloc::Global;
use std::mem;

// The names that are read.
static NAMES: [&[u8]; 4] = [b"a", b"ab", b"b", b"c"];

// A workspace of the transaction that began as the n-th.
fn work_of(alloc: Global, seq: u32) -> Workspace {
    Workspace::new(alloc, txn_of(seq, SiteSet::one(1)))
}

// The number is above those of all operations so far.
fn is_next(work: &Workspace, n: u32) -> bool
    ensures { result ≡ list_all (λ o. nat_lt o.n n) work.now.ops }
{
    work.ops().iter().all(|op| op.n < n)
}

// The operation that these words say, if they say one.
fn op_of(words: &[u8]) -> Option<Op> {
    let (kind, rest) = cut(words, b':');
    let (name, value) = cut(rest, b':');
    let key = Key {
        site: 1,
        name: Name::new(name)?,
    };
    if letter_of(kind) == b'w' {
        Some(Op::Write(key, Val::new(value)?))
    } else {
        Some(Op::Read(key))
    }
}

// Notes an operation, where its number comes next.
fn note(page: &mut Page, work: &mut Workspace, n: u32, words: &[u8]) {
    if let Some(op) = op_of(words) {
        if is_next(work, n) && work.note(NumOp { n, op }).is_err() {
            page.lack();
        }
    }
}

// The rows of a text, with commas between them; out of order, and a name may come twice among them.
fn rows_of(alloc: Global, page: &mut Page, text: &[u8]) -> List<Row> {
    let mut rows = List::new(alloc);
    let words = parts_of(alloc, page, text, b',');
    for word in &words {
        let (name, val) = cut(word, b':');
        if let (Some(name), Some(val)) = (Name::new(name), Val::new(val)) {
            let row = Row { name, val };
            if rows.push(row).is_err() {
                page.lack();
            }
        }
    }
    rows
}

// Adds the value of a name in the table.
fn push_value(page: &mut Page, name: &Name, tables: &Tables) {
    page.text(" ");
    page.bytes(name.bytes());
    match tables.value(name) {
        None => page.text(" none"),
        Some(val) => {
            page.text("=");
            page.bytes(val.bytes());
        }
    }
}

// Adds the value of each name in the table.
fn push_values(page: &mut Page, tables: &Tables) {
    for bytes in &NAMES {
        if let Some(name) = Name::new(bytes) {
            push_value(page, &name, tables);
        }
    }
}

// Adds what a read of a name answers inside the transaction.
fn push_read(page: &mut Page, name: &Name, work: &Workspace, tables: &Tables) {
    page.text(" ");
    page.bytes(name.bytes());
    page.text(" ");
    page.answer(&work.work(tables, name));
}

// Adds the numbers of the operations of a transaction, and what a read of each name answers inside it.
fn push_reads(page: &mut Page, work: &Workspace, tables: &Tables) {
    for op in work.ops() {
        page.labelled(" ", u64::from(op.n));
    }
    page.text(":");
    for bytes in &NAMES {
        if let Some(name) = Name::new(bytes) {
            push_read(page, &name, work, tables);
        }
    }
}

// Installs the writes of a workspace of few operations.
fn install(page: &mut Page, tables: &mut Tables, work: Workspace) {
    let count = work.ops().len();
    if count > 64 || tables.reserve(count as u32).is_err() {
        return page.lack();
    }
    tables.install(work);
}

// Does what a piece says, and adds what is read.
fn act(alloc: Global, page: &mut Page, tables: &mut Tables, work: &mut Workspace, piece: &[u8]) {
    let (word, words) = cut(piece, b':');
    match letter_of(word) {
        b'v' => push_values(page, tables),
        b'r' => push_reads(page, work, tables),
        b'b' => *work = work_of(alloc, small(words)),
        b'c' => install(page, tables, mem::replace(work, work_of(alloc, 0))),
        _ => note(page, work, small(word), words),
    }
}

// Adds what comes of these pieces on a table, beside a workspace.
fn push_all(
    alloc: Global,
    page: &mut Page,
    tables: &mut Tables,
    work: &mut Workspace,
    pieces: &[&[u8]],
) {
    for piece in pieces {
        if !push_text(page, piece) {
            act(alloc, page, tables, work, piece);
        }
    }
    page.text("\n");
}

/// Adds what comes of these pieces on a table that is born with these rows.
pub fn push_pieces(alloc: Global, page: &mut Page, born: &[u8], pieces: &[&[u8]]) {
    let mut tables = Tables::new(rows_of(alloc, page, born));
    let mut work = work_of(alloc, 1);
    push_all(alloc, page, &mut tables, &mut work, pieces);
}
