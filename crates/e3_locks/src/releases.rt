// A release, name by name of those that the transaction has.
ghost use Rattle.std.specs.Prelude.{◌≡◌, ◌≤◌, List as Items, ℕ, vec_len, vec_capacity};
ghost use Rattle.e3_types.specs.Sorted.{IsAscending};
ghost use Rattle.e3_locks.specs.Places.{released};
ghost use Rattle.e3_locks.specs.Standing.{IsTable, place_in};
ghost use Rattle.e3_locks.specs.Pairs.{IsIndex, with_release};

use crate::pairs::{Pair, first_of};
use crate::place::NameLocks;
use e3_types::{Name, Txn, place_of};
use e3_world::found_by_bits;

// On this name the transaction's locks and requests leave, and what that grants is held.
fn release_on(places: &mut Vec<NameLocks>, name: &Name, t: &Txn)
    requires { IsAscending (λ s. s.name) places.old.items }
    ensures places { (n : Items ℕ) → place_in n places.new.items ≡ with_release name.now t.now (λ k. place_in k places.old.items) n }
    ensures table { (most : ℕ) → IsTable places.old.items most → IsTable places.new.items most }
    ensures ascending { IsAscending (λ s. s.name) places.new.items }
    ensures len { vec_len places.new ≡ vec_len places.old }
    ensures room { vec_capacity places.new ≡ vec_capacity places.old }
{
    match place_of(places, name) {
        Ok(at) => places[at].release(t),
        Err(_) => {}
    }
}

// On each name that the transaction has, its locks and requests leave, and what that grants is held.
pub(crate) fn release_all(places: &mut Vec<NameLocks>, pairs: &mut Vec<Pair>, t: &Txn)
    requires ascending { IsAscending (λ s. s.name) places.old.items }
    requires index { IsIndex places.old.items pairs.old.items }
    ensures places { (n : Items ℕ) → place_in n places.new.items ≡ released t.now (place_in n places.old.items) }
    ensures table { (most : ℕ) → IsTable places.old.items most → IsTable places.new.items most }
    ensures index { IsIndex places.new.items pairs.new.items }
    ensures len { vec_len places.new ≡ vec_len places.old }
    ensures room { vec_capacity places.new ≡ vec_capacity places.old }
    ensures pairs_len { vec_len pairs.new ≤ vec_len pairs.old }
    ensures pairs_room { vec_capacity pairs.new ≡ vec_capacity pairs.old }
{
    found_by_bits(t);
    let at = first_of(pairs, t);
    'pairs: while at < pairs.len() && pairs[at].is_of(t) {
        let pair = pairs.remove(at);
        release_on(places, &pair.name, t);
    }
}
