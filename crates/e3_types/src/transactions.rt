// Transactions and their operations.
ghost use Rattle.std.specs.Prelude.{◌≡◌, ◌||◌, ◌↔◌, false, IsTrue, IsSome, IfSome};
ghost use Rattle.e3_types.specs.Transactions.{is_txn};
ghost use Rattle.e3_types.specs.Same.{same_numbers, same_txn, same_key, same_dir, same_state, same_call, is_older, oldest};

use crate::{Name, SiteSet, Val};

/// A record's place: the site that has it, and its name there.
#[derive(Drop)]
pub struct Key {
    pub site: u32,
    pub name: Name,
}

impl Key {
    /// An equal key.
    pub fn copy(&self) -> Key
        ensures { result ≡ self.now }
    {
        Key {
            site: self.site,
            name: self.name.copy(),
        }
    }

    /// The two keys are one.
    pub fn is_same(&self, other: &Key) -> bool
        ensures { result ≡ same_key self.now other.now }
    {
        self.site == other.site && self.name.is_same(&other.name)
    }
}

/// A transaction's name: its coordinator, the coordinator's incarnation at the begin, the number of the begin in that
/// incarnation (from 1), and all its sites. Transactions are ordered by these four in turn; a smaller one is older.
#[derive(Clone, Copy, PartialEq, Eq, PartialOrd, Ord)]
pub struct Txn {
    pub site: u32,
    pub inc: u32,
    pub seq: u32,
    pub sites: SiteSet,
}

impl Txn {
    /// The transaction of this name. None where the coordinator is not among the sites, or a count is 0.
    pub fn new(site: u32, inc: u32, seq: u32, sites: SiteSet) -> Option<Txn>
        ensures form { IsSome result ↔ IsTrue (is_txn (record { site = site; inc = inc; seq = seq; sites = sites })) }
        ensures some { IfSome result (λ t. t ≡ record { site = site; inc = inc; seq = seq; sites = sites }) }
    {
        if !sites.has(site) || inc == 0 || seq == 0 {
            return None;
        }
        Some(Txn {
            site,
            inc,
            seq,
            sites,
        })
    }

    /// The two transactions are one.
    pub fn is_same(&self, other: &Txn) -> bool
        ensures { result ≡ same_txn self.now other.now }
    {
        self.site == other.site
            && self.inc == other.inc
            && self.seq == other.seq
            && self.sites.is_same(other.sites)
    }

    /// This transaction is older than the other: smaller by its site, incarnation, number and sites, in that order.
    pub fn is_older(&self, other: &Txn) -> bool
        ensures { result ≡ is_older self.now other.now }
    {
        let bits = self.sites.bits();
        let other_bits = other.sites.bits();
        self.site < other.site
            || (self.site == other.site
                && (self.inc < other.inc
                    || (self.inc == other.inc
                        && (self.seq < other.seq || (self.seq == other.seq && bits < other_bits)))))
    }

    /// The oldest of this transaction and the others.
    pub fn oldest(self, others: &[Txn]) -> Txn
        ensures { result ≡ oldest self others.now }
    {
        others.iter().fold(self, |oldest, txn| {
            if txn.is_older(&oldest) { *txn } else { oldest }
        })
    }
}

/// The law of the order of transactions: none is older than itself, what is older than an older one is older, and of
/// two transactions one is older or they are one.
#[tactic(auto, using(crate::proofs::Orders::older_irreflexive, crate::proofs::Orders::older_transitive, crate::proofs::Orders::older_total, crate::proofs::SameSites::same_numbers_eq))]
pub fn ages_are_ordered(t: &Txn, u: &Txn, v: &Txn)
    ensures irreflexive { is_older t.now t.now ≡ false }
    ensures transitive { IsTrue (is_older t.now u.now) → IsTrue (is_older u.now v.now) → IsTrue (is_older t.now v.now) }
    ensures total { IsTrue (is_older t.now u.now || is_older u.now t.now || same_txn t.now u.now) }
    ensures same { IsTrue (same_txn t.now u.now) → t.now ≡ u.now }
{
    let _sets = t.sites.is_same(u.sites);
    let _third = v;
}

/// What a transaction does to a record.
#[derive(Drop)]
pub enum Op {
    Read(Key),
    Write(Key, Val),
}

impl Op {
    /// An equal operation.
    pub fn copy(&self) -> Op
        ensures { result ≡ self.now }
    {
        match self {
            Op::Read(key) => Op::Read(key.copy()),
            Op::Write(key, val) => Op::Write(key.copy(), val.copy()),
        }
    }
}

/// An operation with its number. A transaction's operations are numbered from 1, over all its sites.
#[derive(Drop)]
pub struct NumOp {
    pub n: u32,
    pub op: Op,
}

impl NumOp {
    /// An equal operation, of the same number.
    pub fn copy(&self) -> NumOp
        ensures { result ≡ self.now }
    {
        NumOp {
            n: self.n,
            op: self.op.copy(),
        }
    }
}

/// A record of a site: its name and its value.
#[derive(Drop)]
pub struct Row {
    pub name: Name,
    pub val: Val,
}

impl Row {
    /// An equal row.
    pub fn copy(&self) -> Row
        ensures { result ≡ self.now }
    {
        Row {
            name: self.name.copy(),
            val: self.val.copy(),
        }
    }
}

/// What an operation answers: for a read the value, or that there is none; for a write that it was done.
#[derive(Drop)]
pub enum Answer {
    Absent,
    Value(Val),
    Written,
}

impl Answer {
    /// An equal answer.
    pub fn copy(&self) -> Answer
        ensures { result ≡ self.now }
    {
        match self {
            Answer::Absent => Answer::Absent,
            Answer::Value(val) => Answer::Value(val.copy()),
            Answer::Written => Answer::Written,
        }
    }
}

/// The two ways in which a transaction ends.
#[derive(Clone, Copy, PartialEq, Eq)]
pub enum Dir {
    Abort,
    Commit,
}

impl Dir {
    /// The two directions are one.
    pub fn is_same(self, other: Dir) -> bool
        ensures { result ≡ same_dir self other }
    {
        self == other
    }
}

/// The state of a site for a transaction (Skeen 1982): not voted, voted, attempted to commit, attempted to abort,
/// committed, aborted.
#[derive(Clone, Copy, PartialEq, Eq)]
pub enum State {
    Q,
    W,
    Pc,
    Pa,
    C,
    A,
}

impl State {
    /// The two states are one.
    pub fn is_same(self, other: State) -> bool
        ensures { result ≡ same_state self other }
    {
        self == other
    }
}

/// The call of an election: the elector's incarnation, and the count of its elections in it.
#[derive(Clone, Copy, PartialEq, Eq)]
pub struct Call {
    pub inc: u32,
    pub seq: u32,
}

impl Call {
    /// The two calls are one.
    pub fn is_same(self, other: Call) -> bool
        ensures { result ≡ same_call self other }
    {
        self == other
    }
}
