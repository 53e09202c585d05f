// The pairs of a transaction and a name, found by the transaction.
ghost use Rattle.std.specs.Prelude.{◌≡◌, ◌≤◌, ◌<◌, ◌++◌, List as Items, ℕ, MatchResult, length, take, drop, vec_len, vec_capacity};
ghost use Rattle.std.specs.Ordering.{nat_cmp};
ghost use Rattle.std.specs.Cmp.Lexicographic.{slice_cmp};
ghost use Rattle.e3_types.specs.Same.{same_numbers};
ghost use Rattle.e3_types.specs.Sorted.{AreUnder, IsAscending, IsAt, IsGap};
ghost use Rattle.e3_locks.specs.Standing.{Each};
ghost use Rattle.e3_locks.specs.Pairs.{key_of, pair_key, HasKey, AreFrom, IsPut};

use e3_types::{Grant, Name, Txn};
use std::cmp::Ordering;

// A transaction, and a name on which it holds a lock or waits.
#[derive(Drop)]
pub(crate) struct Pair {
    pub(crate) txn: Txn,
    pub(crate) name: Name,
}

impl Pair {
    // The pair is the transaction's.
    pub(crate) fn is_of(&self, t: &Txn) -> bool
        ensures { result ≡ same_numbers (key_of self.now.txn) (key_of t.now) }
    {
        self.txn.site == t.site
            && self.txn.inc == t.inc
            && self.txn.seq == t.seq
            && self.txn.sites.bits() == t.sites.bits()
    }
}

// The order of a transaction with a name, and a pair.
fn order(txn: &Txn, name: &[u8], pair: &Pair) -> Ordering
    ensures { result ≡ slice_cmp nat_cmp (key_of txn.now ++ name.now) (pair_key pair.now) }
{
    txn.cmp(&pair.txn).then(name.cmp(pair.name.bytes()))
}

// The place of the pair; or, where there is none, the place at which it would stand.
fn place_of_pair(pairs: &[Pair], txn: &Txn, name: &[u8]) -> Result<usize, usize>
    requires { IsAscending pair_key pairs.now }
    ensures { MatchResult result (IsAt pair_key (key_of txn.now ++ name.now) pairs.now) (IsGap pair_key (key_of txn.now ++ name.now) pairs.now) }
{
    let mut low = 0;
    let mut high = pairs.len();
    'halves: while low < high {
        let mid = low + (high - low) / 2;
        match order(txn, name, &pairs[mid]) {
            Ordering::Less => high = mid,
            Ordering::Equal => return Ok(mid),
            Ordering::Greater => low = mid + 1,
        }
    }
    Err(low)
}

// The place of the transaction's first pair, or that at which it would stand.
pub(crate) fn first_of(pairs: &[Pair], t: &Txn) -> usize
    requires { IsAscending pair_key pairs.now }
    ensures few { result ≤ length pairs.now }
    ensures before { AreUnder pair_key (key_of t.now) (take result pairs.now) }
    ensures from { AreFrom (key_of t.now) (drop result pairs.now) }
{
    match place_of_pair(pairs, t, &[]) {
        Ok(at) => at,
        Err(at) => at,
    }
}

// The transaction's pairs.
pub(crate) fn pairs_of<'a>(pairs: &'a [Pair], t: &Txn) -> &'a [Pair]
    requires { IsAscending pair_key pairs.now }
    ensures of_txn { Each (λ p. key_of p.txn ≡ key_of t.now) result.now }
    ensures ascending { IsAscending pair_key result.now }
    ensures all { (n : Items ℕ) → HasKey (key_of t.now ++ n) pairs.now → HasKey (key_of t.now ++ n) result.now }
{
    let at = first_of(pairs, t);
    let mut end = at;
    'these: while end < pairs.len() && pairs[end].is_of(t) {
        end += 1;
    }
    &pairs[at..end]
}

// A pair more, unless it is there.
fn add_pair(pairs: &mut Vec<Pair>, txn: &Txn, name: &Name)
    requires ascending { IsAscending pair_key pairs.old.items }
    requires room { vec_len pairs.old < vec_capacity pairs.old }
    ensures ascending { IsAscending pair_key pairs.new.items }
    ensures more { (k : Items ℕ) → HasKey k pairs.old.items → HasKey k pairs.new.items }
    ensures there { HasKey (key_of txn.now ++ name.now) pairs.new.items }
{
    match place_of_pair(pairs, txn, name.bytes()) {
        Ok(_) => {}
        Err(at) => {
            let _ = pairs.insert(
                at,
                Pair {
                    txn: *txn,
                    name: name.copy(),
                },
            );
        }
    }
}

// The pair of a request that was answered so.
pub(crate) fn add_put(pairs: &mut Vec<Pair>, grant: &Grant, txn: &Txn, name: &Name)
    requires ascending { IsAscending pair_key pairs.old.items }
    requires room { vec_len pairs.old < vec_capacity pairs.old }
    ensures ascending { IsAscending pair_key pairs.new.items }
    ensures more { (k : Items ℕ) → HasKey k pairs.old.items → HasKey k pairs.new.items }
    ensures there { IsPut grant.now → HasKey (key_of txn.now ++ name.now) pairs.new.items }
{
    match grant {
        Grant::Held | Grant::Waits => add_pair(pairs, txn, name),
        Grant::Dies { .. } => {}
    }
}
