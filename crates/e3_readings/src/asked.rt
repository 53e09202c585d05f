// Operations that came to a site, in lists.
ghost use Rattle.std.specs.Prelude.{◌≡◌, ◌++◌, IfOk, take};
ghost use Rattle.e3_readings.specs.Requests.{lock_for};

use crate::logs::mode_of;
use e3_types::{List, Lock, NoMemory, Op, Txn};
use e3_world::Asked;

/// The operation of this number of a transaction.
pub fn asked_of(t: &Txn, n: u32, op: &Op) -> Asked
    ensures { result ≡ record { txn = t.now; n = n; op = op.now } }
{
    Asked {
        txn: *t,
        n,
        op: op.copy(),
    }
}

/// The lock that the operation is for: its transaction's, in the mode that it needs.
pub fn lock_for(a: &Asked) -> Lock
    ensures { result ≡ lock_for a.now }
{
    Lock {
        txn: a.txn,
        mode: mode_of(&a.op),
    }
}

/// An equal operation.
pub fn copy_asked(a: &Asked) -> Asked
    ensures { result ≡ a.now }
{
    asked_of(&a.txn, a.n, &a.op)
}

/// Adds copies of these.
pub fn add_asked(asked: &[Asked], out: &mut List<Asked>) -> Result<(), NoMemory>
    ensures { IfOk result (λ u. out.new ≡ out.old ++ asked.now) }
{
    for a in asked {
        out.push(copy_asked(a))?;
    }
    Ok(())
}

/// The first so many of these.
pub fn first_asked(count: u64, asked: List<Asked>) -> List<Asked>
    ensures { result ≡ take count asked }
{
    let mut items = asked.into_vec();
    items.truncate(count as usize);
    List::from_vec(items)
}
