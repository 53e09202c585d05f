// What one more record of a log makes of the tables, at a site that made no step: what it touches is changed in its place.
ghost use Rattle.std.specs.Prelude.{◌≡◌, ◌++◌, ◌∷◌, [], if◌then◌else◌, ℕ, true, OnOk, List as Items, filter, fold, map};
ghost use Rattle.std.specs.List.{list_any};
ghost use Rattle.e3_types.specs.declared.records.Record.{Record as Entry};
ghost use Rattle.e3_types.specs.declared.records.Record.TheVariants as log;
ghost use Rattle.e3_places.specs.declared.keys.TxnId.{TxnId as KeptKey};
ghost use Rattle.e3_types.specs.Same.{same_numbers};
ghost use Rattle.e3_places.specs.Keeping.{PlacesStand, bare, claims_at, place_at};
ghost use Rattle.e3_places.specs.Noting.{cast_more, ended, left_by, with_vote};
ghost use Rattle.e3_places.specs.Rising.{risen};
ghost use Rattle.e3_places.specs.Standing.{cast_in, follow, has_key, is_left, is_on, voted};
ghost use Rattle.e3_places.specs.Touching.{decided_txns};

use crate::behind::{row_with, voted};
use crate::keys::{TxnId, txn_id};
use crate::places::{Claims, ClaimsMap, Place, PlaceMap, Places, bare};
use crate::taking::{put_claims, put_place, take_claims};
use crate::touching::add_ops;
use e3_readings::{copy_asked, is_decision, key_of};
use e3_types::{Dir, List, Name, NoMemory, NumOp, Record, Txn};
use e3_world::Asked;
use std::alloc::Global;
use std::mem;

// The first vote on a name.
fn put_voted(alloc: Global, names: &mut PlaceMap, name: &Name, a: &Asked) -> Result<(), NoMemory>
    ensures { OnOk result ((n : Items ℕ) → place_at names.new.entries n
        ≡ (if same_numbers n name.now then record bare { claims = cast_more bare.claims a.now } else place_at names.old.entries n)) }
{
    let mut place = bare(alloc);
    place.claims.votes.push(copy_asked(a))?;
    put_place(names, name, place)
}

fn put_vote(alloc: Global, names: &mut PlaceMap, a: &Asked) -> Result<(), NoMemory>
    ensures { OnOk result ((n : Items ℕ) → place_at names.new.entries n ≡ with_vote n (place_at names.old.entries n) a.now) }
{
    let name = &key_of(&a.op).name;
    match names.get_mut(name) {
        Some(place) => place.claims.votes.push(copy_asked(a)),
        None => put_voted(alloc, names, name, a),
    }
}

fn put_votes(alloc: Global, names: &mut PlaceMap, t: &Txn, ops: &[NumOp]) -> Result<(), NoMemory>
    ensures { OnOk result ((n : Items ℕ) → place_at names.new.entries n ≡ fold (with_vote n) (place_at names.old.entries n) (map (voted t.now) ops.now)) }
{
    for o in ops {
        put_vote(alloc, names, &voted(t, o))?;
    }
    Ok(())
}

fn add_votes_of(alloc: Global, txns: &mut ClaimsMap, t: &Txn, ops: &[NumOp]) -> Result<(), NoMemory>
    ensures { OnOk result ((k : KeptKey) → claims_at txns.new.entries k
        ≡ (if has_key k t.now then record (claims_at txns.old.entries k) { votes = (claims_at txns.old.entries k).votes ++ map (voted t.now) ops.now } else claims_at txns.old.entries k)) }
{
    let key = txn_id(t);
    let mut claims = take_claims(alloc, txns, key)?;
    add_ops(t, ops, &mut claims.votes)?;
    put_claims(txns, key, claims)
}

// A vote: its operations stand on their names, and at its transaction.
fn cast(alloc: Global, places: &mut Places, t: &Txn, ops: &[NumOp]) -> Result<(), NoMemory>
    ensures { OnOk result ((site inc : ℕ) (before : Items Entry) → PlacesStand site places.old (risen inc before) → follow before (log.Vote t.now ops.now ∷ []) ≡ true
        → PlacesStand site places.new (risen inc (before ++ log.Vote t.now ops.now ∷ []))) }
{
    put_votes(alloc, &mut places.names, t, ops)?;
    add_votes_of(alloc, &mut places.txns, t, ops)
}

fn is_left(r: &Record, a: &Asked) -> bool
    ensures { result ≡ is_left (r.now ∷ []) a.now }
{
    !is_decision(&a.txn, r)
}

fn left_votes(r: &Record, votes: List<Asked>) -> List<Asked>
    ensures { result ≡ filter (is_left (r.now ∷ [])) votes }
{
    let mut votes = votes.into_vec();
    votes.retain(|a| is_left(r, a));
    List::from_vec(votes)
}

fn left_by(r: &Record, was: Claims) -> Claims
    ensures { result ≡ left_by r.now was }
{
    Claims {
        standing: was.standing,
        votes: left_votes(r, was.votes),
    }
}

fn ended(r: &Record, was: Place) -> Place
    ensures { result ≡ ended r.now was }
{
    let Place { claims, row } = was;
    let row = row_with(claims.votes.as_slice(), &[], row, r);
    Place {
        claims: left_by(r, claims),
        row,
    }
}

fn end_place(alloc: Global, place: &mut Place, r: &Record)
    ensures { place.new ≡ ended r.now place.old }
{
    let was = mem::replace(place, bare(alloc));
    *place = ended(r, was);
}

fn end_on(alloc: Global, names: &mut PlaceMap, a: &Asked, r: &Record) -> Result<(), NoMemory>
    ensures { OnOk result ((n : Items ℕ) → place_at names.new.entries n ≡ (if is_on n a.now then ended r.now (place_at names.old.entries n) else place_at names.old.entries n)) }
{
    let name = &key_of(&a.op).name;
    match names.get_mut(name) {
        Some(place) => {
            end_place(alloc, place, r);
            Ok(())
        }
        None => put_place(names, name, ended(r, bare(alloc))),
    }
}

// A name may come more than once: what has ended ends no further.
fn end_each(
    alloc: Global,
    names: &mut PlaceMap,
    votes: &[Asked],
    r: &Record,
) -> Result<(), NoMemory>
    ensures { OnOk result ((n : Items ℕ) → place_at names.new.entries n
        ≡ (if list_any (is_on n) votes.now then ended r.now (place_at names.old.entries n) else place_at names.old.entries n)) }
{
    for a in votes {
        end_on(alloc, names, a, r)?;
    }
    Ok(())
}

// A decision: the transaction's votes go, and where it commits their writes stand in the rows.
fn end(alloc: Global, places: &mut Places, t: &Txn, _dir: Dir, r: &Record) -> Result<(), NoMemory>
    requires { r.now ≡ log.Decision t.now _dir }
    ensures { OnOk result ((site inc : ℕ) (before : Items Entry) → PlacesStand site places.old (risen inc before) → follow before (log.Decision t.now _dir ∷ []) ≡ true
        → PlacesStand site places.new (risen inc (before ++ log.Decision t.now _dir ∷ []))) }
{
    let key = txn_id(t);
    let claims = take_claims(alloc, &mut places.txns, key)?;
    match end_each(alloc, &mut places.names, claims.votes.as_slice(), r) {
        Ok(()) => put_claims(&mut places.txns, key, left_by(r, claims)),
        Err(e) => {
            drop(claims);
            Err(e)
        }
    }
}

// A record that neither votes nor decides changes no table.
fn pass(_places: &Places, _r: &Record)
    requires cast { cast_in _r.now ≡ [] }
    requires undecided { decided_txns _r.now ≡ [] }
    ensures { (site inc : ℕ) (before : Items Entry) → PlacesStand site _places.now (risen inc before) → follow before (_r.now ∷ []) ≡ true
        → PlacesStand site _places.now (risen inc (before ++ _r.now ∷ [])) }
{}

/// The tables of a log with one more record, where it may follow: it is no birth, and votes for or decides no transaction
/// that the log decides. It costs what is known of the record's transaction and on its names. Want of memory is the only
/// error; what the tables are then is left open.
pub fn note(alloc: Global, places: &mut Places, r: &Record) -> Result<(), NoMemory>
    ensures { OnOk result ((site inc : ℕ) (before : Items Entry) → PlacesStand site places.old (risen inc before) → follow before (r.now ∷ []) ≡ true
        → PlacesStand site places.new (risen inc (before ++ r.now ∷ []))) }
{
    match r {
        Record::Vote { txn, ops } => cast(alloc, places, txn, ops.as_slice()),
        Record::Decision { txn, dir } => end(alloc, places, txn, *dir, r),
        Record::Birth { .. } | Record::Inc { .. } | Record::Join { .. } | Record::Attempt { .. } =>
            {
                pass(places, r);
                Ok(())
            }
    }
}
