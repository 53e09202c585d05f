// The table that a log stands for: rows in byte order of their names, each name once.
ghost use Rattle.std.specs.Prelude.{◌≡◌, ◌++◌, ◌∷◌, [], Option, IfOk, fold, length, drop};
ghost use Rattle.std.specs.Ordering.{nat_cmp};
ghost use Rattle.std.specs.Cmp.Lexicographic.{slice_cmp};
ghost use Rattle.e3_world.specs.Logs.{set_row, install_op, table_by, table_of, row_value, voted_ops};
ghost use Rattle.e3_world.specs.Moves.{rows_at};

use crate::logs::voted_ops;
use e3_tables::row_written;
use e3_types::{Answer, Copied, Dir, KeyRow, List, Name, NoMemory, NumOp, Record, Row};
use std::alloc::Global;
use std::cmp::Ordering;

fn add_rows(rows: &[Row], out: &mut List<Row>) -> Result<(), NoMemory>
    ensures { IfOk result (λ u. out.new ≡ out.old ++ rows.now) }
{
    for row in rows {
        out.push(row.copy())?;
    }
    Ok(())
}

fn add_with(row: &Row, rest: &[Row], out: &mut List<Row>) -> Result<(), NoMemory>
    ensures { IfOk result (λ u. out.new ≡ out.old ++ row.now ∷ rest.now) }
{
    out.push(row.copy())?;
    add_rows(rest, out)
}

/// The rows with this one set, in place of the one of its name or in its order.
pub fn set_row(alloc: Global, row: &Row, rows: &[Row]) -> Result<List<Row>, NoMemory>
    ensures { IfOk result (λ out. out ≡ set_row row.now rows.now) }
{
    let mut out = List::new(alloc);
    for i in 0..rows.len() {
        match row.name.bytes().cmp(rows[i].name.bytes()) {
            Ordering::Less => {
                add_with(row, &rows[i..], &mut out)?;
                return Ok(out);
            }
            Ordering::Equal => {
                add_with(row, &rows[i + 1..], &mut out)?;
                return Ok(out);
            }
            Ordering::Greater => out.push(rows[i].copy())?,
        }
    }
    add_with(row, &[], &mut out)?;
    Ok(out)
}

/// The rows after one operation: a write sets its row, a read changes nothing.
pub fn install_op(alloc: Global, rows: List<Row>, op: &NumOp) -> Result<List<Row>, NoMemory>
    ensures { IfOk result (λ out. out ≡ install_op rows op.now) }
{
    match row_written(op) {
        Some(row) => set_row(alloc, &row, rows.as_slice()),
        None => Ok(rows),
    }
}

fn install(alloc: Global, first: List<Row>, ops: &[NumOp]) -> Result<List<Row>, NoMemory>
    ensures { IfOk result (λ out. out ≡ fold install_op first ops.now) }
{
    let mut rows = first;
    for o in ops {
        rows = install_op(alloc, rows, o)?;
    }
    Ok(rows)
}

// The rows behind one more record of a log: a birth's own rows, or with the writes that a commit installs.
fn table_by(
    alloc: Global,
    log: &[Record],
    rows: List<Row>,
    r: &Record,
) -> Result<List<Row>, NoMemory>
    ensures { IfOk result (λ out. out ≡ table_by log.now rows r.now) }
{
    match r {
        Record::Birth { rows: born, .. } => born.copied(alloc),
        Record::Decision {
            txn,
            dir: Dir::Commit,
        } => {
            let ops = voted_ops(alloc, txn, log)?;
            install(alloc, rows, ops.as_slice())
        }
        _ => Ok(rows),
    }
}

/// The table of a log: the rows of its birth, with the writes of what it commits, in the order of its decisions.
pub fn table_of(alloc: Global, log: &[Record]) -> Result<List<Row>, NoMemory>
    ensures { IfOk result (λ out. out ≡ table_of log.now) }
{
    let mut rows = List::new(alloc);
    for r in log {
        rows = table_by(alloc, log, rows, r)?;
    }
    Ok(rows)
}

/// The value of a name in a table.
pub fn row_value(name: &Name, rows: &[Row]) -> Answer
    ensures { result ≡ row_value name.now rows.now }
{
    for row in rows {
        if name.is_same(&row.name) {
            return Answer::Value(row.val.copy());
        }
    }
    Answer::Absent
}

/// The first rows of a site among those of all sites. Where a name comes twice, its first row stands.
pub fn rows_at(alloc: Global, site: u32, rows: &[KeyRow]) -> Result<List<Row>, NoMemory>
    ensures { IfOk result (λ out. out ≡ rows_at site rows.now) }
{
    let mut out = List::new(alloc);
    for i in (0..rows.len()).rev() {
        if rows[i].key.site == site {
            let row = Row {
                name: rows[i].key.name.copy(),
                val: rows[i].val.copy(),
            };
            out = set_row(alloc, &row, out.as_slice())?;
        }
    }
    Ok(out)
}
