// What is read of a log, record by record, at a site that made no step.
ghost use Rattle.std.specs.Prelude.{◌≡◌, ◌==◌, ◌++◌, ◌∷◌, [], ℕ, IfOk, List, length, true};
ghost use Rattle.std.specs.Option.{IsSome};
ghost use Rattle.e3_types.specs.declared.records.Record.{Record as SomeRecord};
ghost use Rattle.e3_world.specs.Logs.{logged_inc};
ghost use Rattle.e3_world.specs.Orderly.{IsOrderly};
ghost use Rattle.e3_cards.specs.Noting.{unstepped};
ghost use Rattle.e3_cards.specs.Tables.{CardsStand};
ghost use Rattle.e3_site.specs.past.Knowing.{NamesStand};
ghost use Rattle.e3_places.specs.Keeping.{PlacesStand};
ghost use Rattle.e3_places.specs.Standing.{may_follow};
ghost use Rattle.e3_world.specs.Serial.{is_birth};
ghost use Rattle.e3_site.specs.past.Standing.{LoggedStand, PlacesMayStand, TablesStand, may_be_read};

use crate::past::following::may_follow;
use crate::past::names::Names;
use crate::past::opening::{no_opens, note_opens};
use crate::past::tables::{Opens, Tables};
use e3_cards::{Cards, note};
use e3_places::{Places, born, unborn};
use e3_readings::logged_inc;
use e3_types::{List, NoMemory, Record};
use std::alloc::Global;
use std::collections::BTreeMap;
use std::mem;

/// What is read of a log at a site that made no step. The tables of names are None where the log doesn't begin with a
/// birth, or where a record came that may not follow it.
#[derive(Drop)]
pub struct Logged {
    pub is_empty: bool,
    pub cards: Cards,
    pub places: Option<Places>,
    pub opens: Opens,
}

// The tables of names of a log that is this record. A log begins with a birth, as no other record makes rows.
fn first_places(alloc: Global, r: &Record) -> Result<Option<Places>, NoMemory>
    ensures stand { IfOk result (λ p. (site inc : ℕ) → PlacesMayStand site p (unstepped inc (r.now ∷ []))) }
    ensures known { IfOk result (λ p. is_birth r.now ≡ true → IsSome p) }
{
    match r {
        Record::Birth { rows, .. } => Ok(Some(born(alloc, rows.as_slice())?)),
        _ => Ok(None),
    }
}

// The tables of names with one more record, where it may follow the log.
fn add_places(
    alloc: Global,
    cards: &Cards,
    places: Option<Places>,
    r: &Record,
) -> Result<Option<Places>, NoMemory>
    ensures stand { IfOk result (λ now. (site inc : ℕ) → (log : List SomeRecord) → CardsStand site cards.now (unstepped inc log)
        → PlacesMayStand site places (unstepped inc log) → PlacesMayStand site now (unstepped inc (log ++ r.now ∷ []))) }
    ensures known { IfOk result (λ now. (site inc : ℕ) → (log : List SomeRecord) → CardsStand site cards.now (unstepped inc log)
        → IsSome places → may_follow log r.now ≡ true → IsSome now) }
{
    let Some(places) = places else {
        return Ok(None);
    };
    if !may_follow(cards, r) {
        return Ok(None);
    }
    let mut places = places;
    e3_places::note(alloc, &mut places, r)?;
    Ok(Some(places))
}

fn places_behind(
    alloc: Global,
    is_empty: bool,
    cards: &Cards,
    places: Option<Places>,
    r: &Record,
) -> Result<Option<Places>, NoMemory>
    ensures stand { IfOk result (λ now. (site inc : ℕ) → (log : List SomeRecord) → is_empty ≡ (length log == 0) → CardsStand site cards.now (unstepped inc log)
        → PlacesMayStand site places (unstepped inc log) → PlacesMayStand site now (unstepped inc (log ++ r.now ∷ []))) }
    ensures known { IfOk result (λ now. (site inc : ℕ) → (log : List SomeRecord) → is_empty ≡ (length log == 0) → CardsStand site cards.now (unstepped inc log)
        → IsSome places → may_be_read log r.now ≡ true → IsSome now) }
{
    if is_empty {
        first_places(alloc, r)
    } else {
        add_places(alloc, cards, places, r)
    }
}

fn no_cards(alloc: Global, site: u32, inc: u32) -> Cards
    ensures { CardsStand site result (unstepped inc []) }
{
    Cards {
        site,
        inc,
        begins: 0,
        calls: 0,
        map: BTreeMap::new(alloc),
    }
}

// Nothing waits at a site that made no step, so that no name is restless.
fn known(alloc: Global, places: Places) -> Names
    ensures { (site inc : ℕ) → (log : List SomeRecord) → PlacesStand site places (unstepped inc log) → NamesStand site result (unstepped inc log) }
{
    Names {
        places,
        restless: List::new(alloc),
    }
}

impl Logged {
    /// What is read of the empty log, at a site of this incarnation.
    pub fn new(alloc: Global, site: u32, inc: u32) -> Logged
        ensures { LoggedStand site result inc [] }
    {
        Logged {
            is_empty: true,
            cards: no_cards(alloc, site, inc),
            places: Some(unborn(alloc)),
            opens: no_opens(alloc),
        }
    }

    /// Reads one more record of the log, in place: it costs what is known of the record's transaction and names. Want of
    /// memory is the only error; what is read then is left open.
    pub fn read(&mut self, alloc: Global, r: &Record) -> Result<(), NoMemory>
        ensures { IfOk result (λ u. (site inc : ℕ) → (log : List SomeRecord) → LoggedStand site self.old inc log → LoggedStand site self.new inc (log ++ r.now ∷ [])) }
    {
        let were = mem::replace(&mut self.places, None);
        let places = places_behind(alloc, self.is_empty, &self.cards, were, r)?;
        self.places = places;
        note_opens(&self.cards, &mut self.opens, r)?;
        note(alloc, &mut self.cards, r)?;
        self.is_empty = false;
        Ok(())
    }

    /// What is read of a whole log, at a site of its incarnation. The log of a site has tables of names. Want of memory is the
    /// only error.
    pub fn of(alloc: Global, site: u32, log: &[Record]) -> Result<Logged, NoMemory>
        ensures stand { IfOk result (λ read. LoggedStand site read (logged_inc log.now) log.now) }
        ensures known { IfOk result (λ read. IsOrderly site log.now → IsSome read.places) }
    {
        let mut read = Logged::new(alloc, site, logged_inc(log));
        for r in log {
            read.read(alloc, r)?;
        }
        Ok(read)
    }

    /// The tables of a site that rose with the log and made no step since. The log of a site has tables of its names.
    pub fn into_tables(self, alloc: Global) -> Tables
        requires { IsSome self.places }
        ensures { (site inc : ℕ) → (log : List SomeRecord) → LoggedStand site self inc log → TablesStand site (unstepped inc log) result }
    {
        let Logged {
            cards,
            places,
            opens,
            ..
        } = self;
        let Some(places) = places else { unreachable!() };
        Tables {
            cards,
            names: known(alloc, places),
            opens,
        }
    }
}
