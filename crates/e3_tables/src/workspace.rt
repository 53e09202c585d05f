// What a transaction notes to do at a site.
ghost use Rattle.std.specs.Prelude.{◌≡◌, ◌≤◌, ◌+◌, ◌++◌, ◌∷◌, [], nat_lt, true, fold, MatchOption, OnOk, OnErr};
ghost use Rattle.std.specs.List.{list_all};
ghost use Rattle.e3_types.specs.declared.transactions.Answer.{Answer as Answers};
ghost use Rattle.e3_types.specs.declared.transactions.Answer.TheVariants.{Value};
ghost use Rattle.e3_tables.specs.Work.{ascend, read_by, read_behind};

use crate::Tables;
use crate::writes::written;
use e3_types::{Answer, Name, NoMemory, NumOp, Txn, Val};
use std::alloc::Global;
use std::marker::Model;

/// The operations of a transaction at a site, in the order of their numbers.
#[derive(Drop)]
pub struct Workspace {
    txn: Txn,
    ops: Vec<NumOp>,
}

impl Model for Workspace {
    ghost use Rattle.std.specs.Prelude.{◌≡◌, ◌-◌, true, vec_len, vec_capacity};
    ghost use Rattle.e3_tables.specs.Work.{Noted, ascend};

    ghost Value = { Noted };

    ghost view = { λ a. record { txn = a.txn; ops = a.ops.items; room = vec_capacity a.ops - vec_len a.ops } };

    ghost invariant = { λ a. ascend a.ops.items ≡ true };
}

// The last that these operations write to the name, if one does.
fn last_write<'a>(ops: &'a [NumOp], name: &Name) -> Option<&'a Val>
    ensures { MatchOption result ((was : Answers) → fold (read_by name.now) was ops.now ≡ was)
        (λ val. (was : Answers) → fold (read_by name.now) was ops.now ≡ Value val.now) }
{
    let mut count = ops.len();
    'back: while count > 0 {
        count -= 1;
        if let Some(val) = written(&ops[count].op, name) {
            return Some(val);
        }
    }
    None
}

impl Workspace {
    /// The workspace of a transaction that noted nothing yet.
    pub fn new(alloc: Global, txn: Txn) -> Workspace
        ensures txn { result.txn ≡ txn }
        ensures ops { result.ops ≡ [] }
    {
        Workspace {
            txn,
            ops: Vec::new(alloc),
        }
    }

    /// The transaction.
    pub fn txn(&self) -> Txn
        ensures { result ≡ self.now.txn }
    {
        self.txn
    }

    /// An operation more, whose number is above all earlier ones. Want of memory is the only error, and changes nothing;
    /// with room it does not come.
    pub fn note(&mut self, op: NumOp) -> Result<(), NoMemory>
        requires { list_all (λ o. nat_lt o.n op.n) self.old.ops ≡ true }
        ensures txn { self.new.txn ≡ self.old.txn }
        ensures ok { OnOk result (self.new.ops ≡ self.old.ops ++ op ∷ []) }
        ensures err { OnErr result (self.new.ops ≡ self.old.ops) }
        ensures full { OnErr result (self.old.room ≡ 0) }
        ensures room { self.old.room ≤ self.new.room + 1 }
    {
        match self.ops.push(op) {
            Ok(()) => Ok(()),
            Err(_) => Err(NoMemory),
        }
    }

    /// Makes room for one operation more, and changes none. Want of memory is the only error.
    pub fn reserve(&mut self) -> Result<(), NoMemory>
        ensures txn { self.new.txn ≡ self.old.txn }
        ensures ops { self.new.ops ≡ self.old.ops }
        ensures kept { self.old.room ≤ self.new.room }
        ensures room { OnOk result (1 ≤ self.new.room) }
    {
        match self.ops.reserve(1) {
            Ok(()) => Ok(()),
            Err(_) => Err(NoMemory),
        }
    }

    /// What a read of a name answers: the last write to it that was noted, else the table's value, else that there is
    /// none. It takes no memory.
    pub fn work(&self, tables: &Tables, name: &Name) -> Answer
        ensures { result ≡ read_behind name.now self.now.ops tables.now.rows }
    {
        match last_write(&self.ops, name) {
            Some(val) => Answer::Value(val.copy()),
            None => match tables.value(name) {
                Some(val) => Answer::Value(val.copy()),
                None => Answer::Absent,
            },
        }
    }

    /// The operations, in the order of their numbers.
    pub fn ops(&self) -> &[NumOp]
        ensures ops { result.now ≡ self.now.ops }
        ensures order { ascend self.now.ops ≡ true }
    {
        self.ops.as_slice()
    }
}
