// The transactions that some log decides in one direction.
ghost use Rattle.std.specs.Prelude.{◌≡◌, IfOk, OnOk};
ghost use Rattle.e3_order.specs.Orders.{decided, with_decision};

use crate::keys::TxnSet;
use e3_readings::SiteRecord;
use e3_types::{Dir, NoMemory, Record};
use std::alloc::Global;

// One more record, which may be a decision in this direction.
fn note(decided: &mut TxnSet, dir: Dir, r: &Record) -> Result<(), NoMemory>
    ensures { OnOk result (decided.new ≡ with_decision dir decided.old r.now) }
{
    match r {
        Record::Decision { txn, dir: d } if d.is_same(dir) => decided.add(txn),
        _ => Ok(()),
    }
}

/// The transactions that some of these records decide in this direction. Want of memory is the only error.
pub fn decided(alloc: Global, dir: Dir, placed: &[SiteRecord]) -> Result<TxnSet, NoMemory>
    ensures { IfOk result (λ keys. keys ≡ decided dir placed.now) }
{
    let mut keys = TxnSet::new(alloc);
    for p in placed {
        note(&mut keys, dir, p.entered())?;
    }
    Ok(keys)
}
