// What stands on a name.
ghost use Rattle.std.specs.Prelude.{◌≡◌};
ghost use Rattle.e3_places.specs.Keeping.{no_claims, bare, place_at};

use crate::keys::TxnId;
use e3_types::{Answer, List, Name};
use e3_world::Asked;
use std::alloc::Global;
use std::collections::BTreeMap;

/// An operation of an undecided transaction that came to the site: it was answered, and has its lock, or it waits.
#[derive(Drop)]
pub struct Standing {
    pub asked: Asked,
    pub answered: bool,
}

/// Operations of undecided transactions: those that came in the present incarnation, in the order of arrival, and those of
/// votes, in the order of the log.
#[derive(Drop)]
pub struct Claims {
    pub standing: List<Standing>,
    pub votes: List<Asked>,
}

/// What stands on a name, and what a read of it answers by the log.
#[derive(Drop)]
pub struct Place {
    pub claims: Claims,
    pub row: Answer,
}

/// What a site knows of names: what stands on each, and the operations and votes of each undecided transaction, by which its
/// names are found.
#[derive(Drop)]
pub struct Places {
    pub names: BTreeMap<Name, Place>,
    pub txns: BTreeMap<TxnId, Claims>,
}

/// What stands on each name.
pub(crate) type PlaceMap = BTreeMap<Name, Place>;

/// What each undecided transaction has.
pub(crate) type ClaimsMap = BTreeMap<TxnId, Claims>;

/// Nothing.
pub(crate) fn no_claims(alloc: Global) -> Claims
    ensures { result ≡ no_claims }
{
    Claims {
        standing: List::new(alloc),
        votes: List::new(alloc),
    }
}

/// A name on which nothing stands, without a row.
pub(crate) fn bare(alloc: Global) -> Place
    ensures { result ≡ bare }
{
    Place {
        claims: no_claims(alloc),
        row: Answer::Absent,
    }
}

/// What stands on a name by a table, or this bare place.
pub(crate) fn place_or<'a>(names: &'a PlaceMap, name: &Name, none: &'a Place) -> &'a Place
    requires { none.now ≡ bare }
    ensures { result.now ≡ place_at names.now.entries name.now }
{
    match names.get(name) {
        Some(place) => place,
        None => none,
    }
}
