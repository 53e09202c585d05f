// What a step makes of the tables.
ghost use Rattle.std.specs.Prelude.{◌≡◌, ◌++◌, ◌∷◌, [], ℕ, List as Items, None, true, IfOk, OnOk, map, fold};
ghost use Rattle.e3_types.specs.declared.records.Record.{Record as Entry};
ghost use Rattle.e3_world.specs.declared.lives.Life.{Life};
ghost use Rattle.e3_world.specs.declared.lives.SiteStep.{SiteStep};
ghost use Rattle.e3_world.specs.Lives.{life_by};
ghost use Rattle.e3_places.specs.declared.keys.TxnId.{TxnId as KeptKey};
ghost use Rattle.e3_places.specs.Standing.{fresh_of, follow};
ghost use Rattle.e3_places.specs.Touching.{names_touched, keys_touched};
ghost use Rattle.e3_places.specs.Keeping.{no_claims, bare, at_name, at_key, place_at, claims_at, PlacesStand, name_change, txn_change, put_name, put_txn, AreChanges, Has, HasEach, IsRoomier, HasRoom, ActAlike};
ghost use Rattle.e3_places.specs.Rising.{risen};

use crate::behind::{claims_by, place_by};
use crate::doings::Doings;
use crate::keys::TxnId;
use crate::picks::Pick;
use crate::places::{
    Claims, ClaimsMap, Place, PlaceMap, Places, Standing, bare, no_claims, place_or,
};
use crate::touching::{keys_touched, names_touched};
use e3_types::{List, Name, NoMemory, Packet, Record, Told};
use std::alloc::Global;

/// What a step makes of a name.
#[derive(Drop)]
pub struct NameChange {
    pub name: Name,
    pub place: Place,
}

/// What a step makes of a transaction.
#[derive(Drop)]
pub struct TxnChange {
    pub key: TxnId,
    pub claims: Claims,
}

/// What a step makes of the tables.
#[derive(Drop)]
pub struct Changes {
    pub names: List<NameChange>,
    pub txns: List<TxnChange>,
}

pub(crate) fn place_behind(doings: &Doings<'_>, name: &Name) -> Result<Place, NoMemory>
    ensures { IfOk result (λ p. p ≡ (name_change doings.now.places.now.names.entries doings.now.new.now doings.now.records.now doings.now.events.now doings.now.outs.now name.now).place) }
{
    let places = doings.places;
    let none = bare(doings.alloc);
    place_by(doings, name, place_or(&places.names, name, &none))
}

fn add_name_change(
    doings: &Doings<'_>,
    name: &Name,
    out: &mut List<NameChange>,
) -> Result<(), NoMemory>
    ensures { IfOk result (λ u. out.new ≡ out.old ++ name_change doings.now.places.now.names.entries doings.now.new.now doings.now.records.now doings.now.events.now doings.now.outs.now name.now ∷ []) }
{
    let place = place_behind(doings, name)?;
    out.push(NameChange {
        name: name.copy(),
        place,
    })
}

fn add_name_changes(
    doings: &Doings<'_>,
    names: &[Name],
    out: &mut List<NameChange>,
) -> Result<(), NoMemory>
    ensures { IfOk result (λ u. out.new ≡ out.old ++ map (name_change doings.now.places.now.names.entries doings.now.new.now doings.now.records.now doings.now.events.now doings.now.outs.now) names.now) }
{
    for name in names {
        add_name_change(doings, name, out)?;
    }
    Ok(())
}

fn name_changes(doings: &Doings<'_>) -> Result<List<NameChange>, NoMemory>
    ensures { IfOk result (λ cs. cs ≡ map (name_change doings.now.places.now.names.entries doings.now.new.now doings.now.records.now doings.now.events.now doings.now.outs.now) (names_touched doings.now.places.now.txns.entries doings.now.new.now doings.now.records.now doings.now.events.now doings.now.outs.now)) }
{
    let touched = names_touched(doings)?;
    let mut out = List::new(doings.alloc);
    add_name_changes(doings, touched.as_slice(), &mut out)?;
    Ok(out)
}

fn claims_behind(doings: &Doings<'_>, key: TxnId) -> Result<Claims, NoMemory>
    ensures { IfOk result (λ x. x ≡ (txn_change doings.now.places.now.txns.entries doings.now.new.now doings.now.records.now doings.now.events.now doings.now.outs.now key).claims) }
{
    let places = doings.places;
    let pick = Pick::Of(key);
    match places.txns.get(&key) {
        Some(claims) => claims_by(doings, &pick, claims),
        None => claims_by(doings, &pick, &no_claims(doings.alloc)),
    }
}

fn add_txn_change(
    doings: &Doings<'_>,
    key: TxnId,
    out: &mut List<TxnChange>,
) -> Result<(), NoMemory>
    ensures { IfOk result (λ u. out.new ≡ out.old ++ txn_change doings.now.places.now.txns.entries doings.now.new.now doings.now.records.now doings.now.events.now doings.now.outs.now key ∷ []) }
{
    let claims = claims_behind(doings, key)?;
    out.push(TxnChange { key, claims })
}

fn add_txn_changes(
    doings: &Doings<'_>,
    keys: &[TxnId],
    out: &mut List<TxnChange>,
) -> Result<(), NoMemory>
    ensures { IfOk result (λ u. out.new ≡ out.old ++ map (txn_change doings.now.places.now.txns.entries doings.now.new.now doings.now.records.now doings.now.events.now doings.now.outs.now) keys.now) }
{
    for key in keys {
        add_txn_change(doings, *key, out)?;
    }
    Ok(())
}

fn txn_changes(doings: &Doings<'_>) -> Result<List<TxnChange>, NoMemory>
    ensures { IfOk result (λ cs. cs ≡ map (txn_change doings.now.places.now.txns.entries doings.now.new.now doings.now.records.now doings.now.events.now doings.now.outs.now) (keys_touched doings.now.new.now doings.now.records.now doings.now.events.now doings.now.outs.now)) }
{
    let touched = keys_touched(doings)?;
    let mut out = List::new(doings.alloc);
    add_txn_changes(doings, touched.as_slice(), &mut out)?;
    Ok(out)
}

/// What a step makes of the tables, where it takes up this operation, makes these records, and tells and sends these. It
/// reads the tables alone.
pub fn changes_of(
    alloc: Global,
    places: &Places,
    new: &Option<Standing>,
    records: &[Record],
    events: &[Told],
    outs: &[Packet],
) -> Result<Changes, NoMemory>
    ensures { IfOk result (λ cs. (site : ℕ) (life : Life) → PlacesStand site places.now life
        → AreChanges places.now new.now records.now events.now outs.now cs) }
{
    let doings = Doings {
        alloc,
        places,
        new,
        records,
        events,
        outs,
    };
    Ok(Changes {
        names: name_changes(&doings)?,
        txns: txn_changes(&doings)?,
    })
}

// A name on which nothing stands says what no entry says.
fn ready_name(alloc: Global, names: &mut PlaceMap, name: &Name) -> Result<(), NoMemory>
    ensures same { IsRoomier at_name bare names.old.entries names.new.entries }
    ensures ok { OnOk result (Has at_name names.new.entries name.now) }
{
    if names.contains_key(name) {
        return Ok(());
    }
    match names.insert(name.copy(), bare(alloc)) {
        Ok(was) => {
            drop(was);
            Ok(())
        }
        Err(failed) => {
            drop(failed.value.1);
            Err(NoMemory)
        }
    }
}

fn ready_names(alloc: Global, names: &mut PlaceMap, changes: &[NameChange]) -> Result<(), NoMemory>
    ensures same { IsRoomier at_name bare names.old.entries names.new.entries }
    ensures ok { OnOk result (HasEach at_name names.new.entries (map (λ c. c.name) changes.now)) }
{
    match changes {
        [] => Ok(()),
        [change, rest @ ..] => {
            ready_names(alloc, names, rest)?;
            ready_name(alloc, names, &change.name)
        }
    }
}

fn ready_txn(alloc: Global, txns: &mut ClaimsMap, key: TxnId) -> Result<(), NoMemory>
    ensures same { IsRoomier at_key no_claims txns.old.entries txns.new.entries }
    ensures ok { OnOk result (Has at_key txns.new.entries key) }
{
    if txns.contains_key(&key) {
        return Ok(());
    }
    match txns.insert(key, no_claims(alloc)) {
        Ok(was) => {
            drop(was);
            Ok(())
        }
        Err(failed) => {
            drop(failed.value.1);
            Err(NoMemory)
        }
    }
}

fn ready_txns(alloc: Global, txns: &mut ClaimsMap, changes: &[TxnChange]) -> Result<(), NoMemory>
    ensures same { IsRoomier at_key no_claims txns.old.entries txns.new.entries }
    ensures ok { OnOk result (HasEach at_key txns.new.entries (map (λ c. c.key) changes.now)) }
{
    match changes {
        [] => Ok(()),
        [change, rest @ ..] => {
            ready_txns(alloc, txns, rest)?;
            ready_txn(alloc, txns, change.key)
        }
    }
}

/// Makes room for changes: afterwards there is an entry for each. The tables say what they said, also where memory wants.
pub fn ready(alloc: Global, places: &mut Places, changes: &Changes) -> Result<(), NoMemory>
    ensures same { ActAlike places.old places.new changes.now }
    ensures ok { OnOk result (HasRoom places.new changes.now) }
{
    ready_names(alloc, &mut places.names, changes.names.as_slice())?;
    ready_txns(alloc, &mut places.txns, changes.txns.as_slice())
}

fn put_name(names: &mut PlaceMap, change: NameChange)
    requires { Has at_name names.old.entries change.name }
    ensures values { (name : Items ℕ) → place_at names.new.entries name ≡ put_name name (place_at names.old.entries name) change }
    ensures keys { (name : Items ℕ) → Has at_name names.old.entries name → Has at_name names.new.entries name }
{
    let _ = names.insert(change.name, change.place);
}

fn put_names(names: &mut PlaceMap, changes: List<NameChange>)
    requires { HasEach at_name names.old.entries (map (λ c. c.name) changes) }
    ensures { (name : Items ℕ) → place_at names.new.entries name ≡ fold (put_name name) (place_at names.old.entries name) changes }
{
    for change in changes.into_vec() {
        put_name(names, change);
    }
}

fn put_txn(txns: &mut ClaimsMap, change: TxnChange)
    requires { Has at_key txns.old.entries change.key }
    ensures values { (k : KeptKey) → claims_at txns.new.entries k ≡ put_txn k (claims_at txns.old.entries k) change }
    ensures keys { (k : KeptKey) → Has at_key txns.old.entries k → Has at_key txns.new.entries k }
{
    let _ = txns.insert(change.key, change.claims);
}

fn put_txns(txns: &mut ClaimsMap, changes: List<TxnChange>)
    requires { HasEach at_key txns.old.entries (map (λ c. c.key) changes) }
    ensures { (k : KeptKey) → claims_at txns.new.entries k ≡ fold (put_txn k) (claims_at txns.old.entries k) changes }
{
    for change in changes.into_vec() {
        put_txn(txns, change);
    }
}

/// Puts the changes of a step in their places: the tables stand for the life with that step. It takes no memory.
pub fn apply(places: &mut Places, changes: Changes)
    requires { HasRoom places.old changes }
    ensures step { (site : ℕ) (life : Life) (s : SiteStep) → PlacesStand site places.old life → AreChanges places.old (fresh_of site life s) s.records s.told s.outs changes
        → follow life.log s.records ≡ true → PlacesStand site places.new (life_by life s) }
    ensures risen { (site inc : ℕ) (records rs : Items Entry) → PlacesStand site places.old (risen inc records) → AreChanges places.old None rs [] [] changes
        → follow records rs ≡ true → PlacesStand site places.new (risen inc (records ++ rs)) }
{
    put_names(&mut places.names, changes.names);
    put_txns(&mut places.txns, changes.txns);
}
