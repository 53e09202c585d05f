// From records to bytes.
ghost use Rattle.std.specs.Prelude.{◌≡◌, ◌++◌, IfOk, OnOk};
ghost use Rattle.std.specs.List.{AllByRecursion};
ghost use Rattle.e3_types.specs.Spelling.{spell_record, spell_txn, spelling, u8, u32};
ghost use Rattle.e3_types.specs.declared.records.Record.TheVariants as log;
ghost use Rattle.e3_codec.specs.Fields.{HasSpelling};

use crate::fields::{put_dir, put_txn, put_u8, put_u32};
use crate::listed::put_list;
use e3_types::{List, NoMemory, NumOp, Record, Row, Txn};
use std::alloc::Global;

fn put_birth(
    out: &mut List<u8>,
    format: u32,
    site: u32,
    weights: &[u32],
    rows: &[Row],
) -> Result<(), NoMemory>
    ensures bytes { OnOk result (out.new ≡ out.old ++ spell_record (log.Birth format site weights.now rows.now)) }
    ensures few { OnOk result (HasSpelling (log.Birth format site weights.now rows.now)) }
{
    put_u8(out, 1)?;
    put_u32(out, format)?;
    put_u32(out, site)?;
    put_list(out, weights)?;
    put_list(out, rows)
}

// The tag of a record of a transaction, and the transaction.
fn put_head(out: &mut List<u8>, tag: u8, txn: &Txn) -> Result<(), NoMemory>
    ensures { OnOk result (out.new ≡ out.old ++ (u8 tag ++ spell_txn txn.now)) }
{
    put_u8(out, tag)?;
    put_txn(out, txn)
}

// Such a head, and the number that follows it.
fn put_numbered(out: &mut List<u8>, tag: u8, txn: &Txn, n: u32) -> Result<(), NoMemory>
    ensures { OnOk result (out.new ≡ out.old ++ (u8 tag ++ (spell_txn txn.now ++ u32 n))) }
{
    put_head(out, tag, txn)?;
    put_u32(out, n)
}

fn put_vote(out: &mut List<u8>, txn: &Txn, ops: &[NumOp]) -> Result<(), NoMemory>
    ensures bytes { OnOk result (out.new ≡ out.old ++ spell_record (log.Vote txn.now ops.now)) }
    ensures few { OnOk result (HasSpelling (log.Vote txn.now ops.now)) }
{
    put_head(out, 3, txn)?;
    put_list(out, ops)
}

fn put_record(out: &mut List<u8>, r: &Record) -> Result<(), NoMemory>
    ensures bytes { OnOk result (out.new ≡ out.old ++ spell_record r.now) }
    ensures few { OnOk result (HasSpelling r.now) }
{
    match r {
        Record::Birth {
            format,
            site,
            weights,
            rows,
        } => put_birth(out, *format, *site, weights.as_slice(), rows.as_slice()),
        Record::Inc { inc } => {
            put_u8(out, 2)?;
            put_u32(out, *inc)
        }
        Record::Vote { txn, ops } => put_vote(out, txn, ops.as_slice()),
        Record::Join { txn, n } => put_numbered(out, 4, txn, *n),
        Record::Attempt { txn, n, dir } => {
            put_numbered(out, 5, txn, *n)?;
            put_dir(out, *dir)
        }
        Record::Decision { txn, dir } => {
            put_head(out, 6, txn)?;
            put_dir(out, *dir)
        }
    }
}

/// The one spelling of these records, one after the other. A record in which a list has 2^32 members or more has no
/// spelling; `NoMemory` comes for it, and for want of memory.
pub fn put_records(alloc: Global, records: &[Record]) -> Result<List<u8>, NoMemory>
    ensures bytes { IfOk result (λ bytes. bytes ≡ spelling records.now) }

    // Ok never comes for a record that has no spelling.
    ensures few { OnOk result (AllByRecursion HasSpelling records.now) }
{
    let mut out = List::new(alloc);
    for r in records {
        put_record(&mut out, r)?;
    }
    Ok(out)
}
