// Transactions as keys of maps, and sets of transactions.
ghost use Rattle.std.specs.Prelude.{◌≡◌, [], OnOk, length, nat_eq, Some};
ghost use Rattle.std.specs.Cmp.{partial_equiv_from_equiv};
ghost use Rattle.std.specs.Cmp.Lexicographic.{pointwise, slice_cmp, nat_list_eq_equiv, nat_list_cmp_total, texts_ties, texts_po};
ghost use Rattle.std.specs.Ordering.{nat_cmp, ordering_then};
ghost use Rattle.std.proofs.Common.{rules};
ghost use Rattle.e3_order.specs.Keys.{numbers_of, has_txn, with_txn};

use e3_types::{NoMemory, SiteSet, Txn};
use std::alloc::Global;
use std::cmp::Ordering;
use std::collections::BTreeSet;
use std::marker::Model;

// The order of two sets as the lists of their sites. There are no more than 64, so it calls itself no deeper.
#[tactic(auto, using(crate::proofs::KeyOrder::next_sites, crate::proofs::KeyOrder::fewer_sites))]
fn sites_cmp(left: SiteSet, right: SiteSet) -> Ordering
    ensures { result ≡ slice_cmp nat_cmp left right }
{
    match left.split_first() {
        None => match right.split_first() {
            None => Ordering::Equal,
            Some(_) => Ordering::Less,
        },
        Some((site, rest)) => match right.split_first() {
            None => Ordering::Greater,
            Some((other, others)) => site.cmp(&other).then(sites_cmp(rest, others)),
        },
    }
}

// The order of the numbers before the sites, and where those are the same that of the sites.
fn then_sites(front: Ordering, left: SiteSet, right: SiteSet) -> Ordering
    ensures { result ≡ ordering_then front (slice_cmp nat_cmp left right) }
{
    match front {
        Ordering::Less => Ordering::Less,
        Ordering::Equal => sites_cmp(left, right),
        Ordering::Greater => Ordering::Greater,
    }
}

// The order of the numbers of two transactions as lists, their sites last. No list is made.
#[tactic(auto, using(crate::proofs::KeyOrder::numbers_joined))]
fn numbers_cmp(left: &Txn, right: &Txn) -> Ordering
    ensures { result ≡ slice_cmp nat_cmp (numbers_of left.now) (numbers_of right.now) }
{
    let behind = left.inc.cmp(&right.inc).then(left.seq.cmp(&right.seq));
    let front = left.site.cmp(&right.site).then(behind);
    then_sites(front, left.sites, right.sites)
}

// The numbers of two transactions are the same.
#[tactic(auto, using(crate::proofs::KeyOrder::numbers_tied))]
fn numbers_same(left: &Txn, right: &Txn) -> bool
    ensures { result ≡ pointwise nat_eq (numbers_of left.now) (numbers_of right.now) }
{
    left.is_same(right)
}

/// A transaction as the key of a map, seen as the numbers that make it, its sites last. Keys are ordered as lists are.
#[derive(Drop)]
pub struct TxnKey {
    txn: Txn,
}

impl Model for TxnKey {
    ghost use Rattle.std.specs.Prelude.{ℕ, List};
    ghost use Rattle.e3_order.specs.Keys.{numbers_of};

    ghost Value = { List ℕ };

    ghost view = { λ a. numbers_of a.txn };
}

impl TxnKey {
    /// The key of a transaction.
    pub fn of(txn: &Txn) -> TxnKey
        ensures { result ≡ numbers_of txn.now }
    {
        TxnKey { txn: *txn }
    }
}

impl PartialEq for TxnKey {
    ghost eq = { pointwise nat_eq };

    ghost laws = { partial_equiv_from_equiv nat_list_eq_equiv };

    fn eq(&self, other: &TxnKey) -> bool {
        numbers_same(&self.txn, &other.txn)
    }
}

impl Eq for TxnKey {
    ghost laws = { nat_list_eq_equiv };
}

impl PartialOrd for TxnKey {
    ghost partial_cmp = { λ x y. Some (slice_cmp nat_cmp x y) };

    ghost laws = { texts_po };

    fn partial_cmp(&self, other: &TxnKey) -> Option<Ordering> {
        Some(self.cmp(other))
    }
}

impl Ord for TxnKey {
    ghost cmp = { slice_cmp nat_cmp };

    ghost total = { nat_list_cmp_total };

    ghost matches_partial_cmp = { Prim.search rules };

    ghost matches_eq = { texts_ties };

    fn cmp(&self, other: &TxnKey) -> Ordering {
        numbers_cmp(&self.txn, &other.txn)
    }
}

/// A set of transactions, seen as the list of their keys.
#[derive(Drop)]
pub struct TxnSet {
    keys: BTreeSet<TxnKey>,
}

impl Model for TxnSet {
    ghost use Rattle.std.specs.Prelude.{ℕ, List};

    ghost Value = { List (List ℕ) };

    ghost view = { λ a. a.keys.keys };
}

impl TxnSet {
    /// No transactions yet.
    pub fn new(alloc: Global) -> TxnSet
        ensures { result ≡ [] }
    {
        TxnSet {
            keys: BTreeSet::new(alloc),
        }
    }

    /// How many transactions there are.
    pub fn len(&self) -> u64
        ensures { result ≡ length self.now }
    {
        self.keys.len() as u64
    }

    /// Whether the transaction is one of these.
    pub fn has(&self, txn: &Txn) -> bool
        ensures { result ≡ has_txn txn.now self.now }
    {
        let key = TxnKey::of(txn);
        self.keys.contains(&key)
    }

    /// Adds a transaction, where it is not there yet. Want of memory is the only error.
    pub fn add(&mut self, txn: &Txn) -> Result<(), NoMemory>
        ensures { OnOk result (self.new ≡ with_txn txn.now self.old) }
    {
        if self.has(txn) {
            return Ok(());
        }
        match self.keys.insert(TxnKey::of(txn)) {
            Ok(_) => Ok(()),
            Err(_) => Err(NoMemory),
        }
    }
}
