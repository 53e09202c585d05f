// Records that can be read back from the log of a site.
ghost use Rattle.std.specs.Prelude.{◌≡◌, ℕ, IfOk, OnOk};
ghost use Rattle.std.specs.List.{AllByRecursion};
ghost use Rattle.e3_codec.specs.Fields.{AllCanBeReadBack, IsShort, RowFits, TxnNumbersFit};
ghost use Rattle.e3_node.specs.Telling.{IsOfSite, IsTold, NumOpTold, OpTold};
ghost use Rattle.e3_types.specs.Spelling.{spelling};
ghost use Rattle.e3_types.specs.Text.{IsName, IsValue};

use e3_codec::put_records;
use e3_types::{List, Name, NoMemory, NumOp, Op, Record, Row, Txn, Val};
use e3_world::found_by_bits;
use std::alloc::Global;

// The numbers of a transaction fit, and its sites are those of their bits.
fn tell_txn(t: &Txn)
    ensures { TxnNumbersFit t.now }
{
    let _txn = t.oldest(&[]);
    let _bits = t.sites.bits();
    found_by_bits(t);
}

// A name has the form of its type.
fn tell_name(name: &Name)
    ensures { IsName name.now }
{
    let _name = name.copy();
}

// So has a value.
fn tell_val(val: &Val)
    ensures { IsValue val.now }
{
    let _val = val.copy();
}

fn tell_row(row: &Row)
    ensures { RowFits row.now }
{
    tell_name(&row.name);
    tell_val(&row.val);
}

fn tell_op(op: &Op)
    ensures { OpTold op.now }
{
    match op {
        Op::Read(key) => tell_name(&key.name),
        Op::Write(key, val) => {
            tell_name(&key.name);
            tell_val(val);
        }
    }
}

fn tell_num_op(o: &NumOp)
    ensures { NumOpTold o.now }
{
    let _n = o.n;
    tell_op(&o.op);
}

fn tell_weights(weights: &[u32])
    ensures { AllByRecursion IsShort weights.now }
{
    let _weights = weights;
}

fn tell_rows(rows: &[Row])
    ensures { AllByRecursion RowFits rows.now }
{
    for row in rows {
        tell_row(row);
    }
}

fn tell_ops(ops: &[NumOp])
    ensures { AllByRecursion NumOpTold ops.now }
{
    for o in ops {
        tell_num_op(o);
    }
}

// The numbers, names and values of a record are such as their types have.
fn tell_record(r: &Record)
    ensures { IsTold r.now }
{
    match r {
        Record::Birth {
            format,
            site,
            weights,
            rows,
        } => {
            let _numbers = (*format, *site);
            tell_weights(weights.as_slice());
            tell_rows(rows.as_slice());
        }
        Record::Inc { inc } => {
            let _inc = *inc;
        }
        Record::Vote { txn, ops } => {
            tell_txn(txn);
            tell_ops(ops.as_slice());
        }
        Record::Join { txn, n } => {
            let _n = *n;
            tell_txn(txn);
        }
        Record::Attempt { txn, n, .. } => {
            let _n = *n;
            tell_txn(txn);
        }
        Record::Decision { txn, .. } => tell_txn(txn),
    }
}

fn tell_records(records: &[Record])
    ensures { AllByRecursion IsTold records.now }
{
    for r in records {
        tell_record(r);
    }
}

/// The spelling of records. Those of a site in a legal history can be read back from the site's log: that each number, name
/// and value has the form of its type is told, and nothing is tested.
#[tactic(auto, using(crate::proofs::Telling::spelled_back))]
pub(crate) fn spelled(alloc: Global, records: &[Record]) -> Result<List<u8>, NoMemory>
    ensures bytes { IfOk result (λ bytes. bytes ≡ spelling records.now) }
    ensures back { OnOk result ((site : ℕ) → AllByRecursion (IsOfSite site) records.now → AllCanBeReadBack site records.now) }
{
    tell_records(records);
    put_records(alloc, records)
}
