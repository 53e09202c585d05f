// The brief of a log.
ghost use Rattle.std.specs.Prelude.{◌≡◌, ◌++◌, [], IfOk};
ghost use Rattle.std.specs.List.{flat_map};
ghost use Rattle.e3_world.specs.Brief.{born_by, born_in, brief, inc_in, noted, txns_of};
ghost use Rattle.e3_world.specs.Logs.{table_of};

use crate::notes::add_noted;
use e3_readings::{add_logged, in_order, logged_inc, table_of};
use e3_types::{Copied, List, NoMemory, Record, Row, Txn};
use std::alloc::Global;

// Adds a birth, with these rows.
fn add_born(
    alloc: Global,
    rows: &List<Row>,
    r: &Record,
    out: &mut List<Record>,
) -> Result<(), NoMemory>
    ensures { IfOk result (λ u. out.new ≡ out.old ++ born_by rows.now r.now) }
{
    match r {
        Record::Birth {
            format,
            site,
            weights,
            ..
        } => out.push(Record::Birth {
            format: *format,
            site: *site,
            weights: weights.copied(alloc)?,
            rows: rows.copied(alloc)?,
        }),
        _ => Ok(()),
    }
}

fn add_births(
    alloc: Global,
    rows: &List<Row>,
    records: &[Record],
    out: &mut List<Record>,
) -> Result<(), NoMemory>
    ensures { IfOk result (λ u. out.new ≡ out.old ++ born_in rows.now records.now) }
{
    for r in records {
        add_born(alloc, rows, r, out)?;
    }
    Ok(())
}

fn add_inc(inc: u32, out: &mut List<Record>) -> Result<(), NoMemory>
    ensures { IfOk result (λ u. out.new ≡ out.old ++ inc_in inc) }
{
    if inc > 0 {
        out.push(Record::Inc { inc })
    } else {
        Ok(())
    }
}

// The transactions with a record, ascending.
fn txns_of(alloc: Global, records: &[Record]) -> Result<List<Txn>, NoMemory>
    ensures { IfOk result (λ txns. txns ≡ txns_of records.now) }
{
    let mut txns = List::new(alloc);
    add_logged(records, &mut txns)?;
    in_order(alloc, txns.as_slice())
}

fn add_blocks(
    alloc: Global,
    txns: &[Txn],
    records: &[Record],
    out: &mut List<Record>,
) -> Result<(), NoMemory>
    ensures { IfOk result (λ u. out.new ≡ out.old ++ flat_map (noted records.now) txns.now) }
{
    for t in txns {
        add_noted(alloc, t, records, out)?;
    }
    Ok(())
}

// Adds the births, with the rows of the table.
fn add_first(alloc: Global, records: &[Record], out: &mut List<Record>) -> Result<(), NoMemory>
    ensures { IfOk result (λ u. out.new ≡ out.old ++ born_in (table_of records.now) records.now) }
{
    let rows = table_of(alloc, records)?;
    add_births(alloc, &rows, records, out)
}

// Adds what is noted of each transaction.
fn add_all_noted(alloc: Global, records: &[Record], out: &mut List<Record>) -> Result<(), NoMemory>
    ensures { IfOk result (λ u. out.new ≡ out.old ++ flat_map (noted records.now) (txns_of records.now)) }
{
    let txns = txns_of(alloc, records)?;
    add_blocks(alloc, txns.as_slice(), records, out)
}

// Adds the brief of these records.
fn add_brief(alloc: Global, records: &[Record], out: &mut List<Record>) -> Result<(), NoMemory>
    requires { out.old ≡ [] }
    ensures { IfOk result (λ u. out.new ≡ brief records.now) }
{
    add_first(alloc, records, out)?;
    add_inc(logged_inc(records), out)?;
    add_all_noted(alloc, records, out)
}

/// The brief of a log: its birth with the rows of its table, its last incarnation, and of each transaction, these ascending,
/// its vote with the operations that are open, its last attempt, its last join and its decision. Each transaction is read off
/// all records, so the time grows with the product of both. Want of memory is the only error.
pub fn brief(alloc: Global, records: &[Record]) -> Result<List<Record>, NoMemory>
    ensures { IfOk result (λ out. out ≡ brief records.now) }
{
    let mut out = List::new(alloc);
    add_brief(alloc, records, &mut out)?;
    Ok(out)
}
