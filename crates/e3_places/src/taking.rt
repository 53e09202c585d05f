// Entries of the tables that are taken out, to be changed and put back.
ghost use Rattle.std.specs.Prelude.{◌≡◌, if◌then◌else◌, ℕ, false, IfOk, OnOk, List as Items};
ghost use Rattle.e3_types.specs.Same.{same_numbers};
ghost use Rattle.e3_places.specs.declared.keys.TxnId.{TxnId as KeptKey};
ghost use Rattle.e3_places.specs.Keeping.{claims_at, is_key, place_at};

use crate::keys::TxnId;
use crate::places::{Claims, ClaimsMap, Place, PlaceMap, no_claims};
use e3_types::{Name, NoMemory};
use std::alloc::Global;

/// This stands on the name from now on.
pub(crate) fn put_place(names: &mut PlaceMap, name: &Name, place: Place) -> Result<(), NoMemory>
    ensures { OnOk result ((n : Items ℕ) → place_at names.new.entries n ≡ (if same_numbers n name.now then place else place_at names.old.entries n)) }
{
    match names.insert(name.copy(), place) {
        Ok(was) => {
            drop(was);
            Ok(())
        }
        Err(failed) => {
            drop(failed.value.1);
            Err(NoMemory)
        }
    }
}

/// Takes what a transaction has out; nothing stands in its place.
pub(crate) fn take_claims(
    alloc: Global,
    txns: &mut ClaimsMap,
    key: TxnId,
) -> Result<Claims, NoMemory>
    ensures claims { IfOk result (λ c. c ≡ claims_at txns.old.entries key) }
    ensures rest { OnOk result ((k : KeptKey) → is_key k key ≡ false → claims_at txns.new.entries k ≡ claims_at txns.old.entries k) }
{
    match txns.insert(key, no_claims(alloc)) {
        Ok(was) => Ok(was.unwrap_or(no_claims(alloc))),
        Err(_) => Err(NoMemory),
    }
}

/// The transaction has this from now on.
pub(crate) fn put_claims(txns: &mut ClaimsMap, key: TxnId, claims: Claims) -> Result<(), NoMemory>
    ensures { OnOk result ((k : KeptKey) → claims_at txns.new.entries k ≡ (if is_key k key then claims else claims_at txns.old.entries k)) }
{
    match txns.insert(key, claims) {
        Ok(was) => {
            drop(was);
            Ok(())
        }
        Err(failed) => {
            drop(failed.value.1);
            Err(NoMemory)
        }
    }
}
