// The entries that are read, and where their packets stand.
ghost use Rattle.std.specs.Prelude.{◌≡◌, ◌≤◌, ◌++◌, ◌∷◌, [], length, IfOk, OnOk, option_and_then};
ghost use Rattle.std.specs.BTreeMap.{insert_entry};
ghost use Rattle.std.specs.Ordering.{nat_cmp};
ghost use Rattle.e3_world.specs.Packets.{outs_of, sent};
ghost use Rattle.e3_trace.specs.Cuts.{Gives};
ghost use Rattle.e3_trace.specs.Fields.{u64_of};
ghost use Rattle.e3_trace.specs.Past.{ArePlaces, by_number, sent_at, standing};

use crate::faults::Fault;
use crate::fields::Field;
use e3_types::{Act, Entry, NoMemory, Packet};
use e3_world::History;
use std::alloc::Global;
use std::collections::BTreeMap;
use std::marker::Model;

/// Where a packet stands: the entry that sent it, and its place among the packets of that entry, both counted from 0.
#[derive(Clone, Copy)]
pub(crate) struct Place {
    pub(crate) entry: u64,
    pub(crate) packet: usize,
}

/// The entries that are read. A map finds by its number where a packet stands, so that none is kept twice.
#[derive(Drop)]
pub(crate) struct Past {
    entries: History,
    places: BTreeMap<u64, Place>,
}

impl Model for Past {
    ghost use Rattle.std.specs.Prelude.{List as Items};
    ghost use Rattle.e3_types.specs.declared.entries.Entry.{Entry as Read};
    ghost use Rattle.e3_world.specs.Packets.{sent};
    ghost use Rattle.e3_trace.specs.Past.{ArePlaces, by_number};

    ghost Value = { Items Read };

    ghost view = { λ p. p.entries.entries };

    ghost invariant = { λ p. ArePlaces p.entries.entries p.places.entries (by_number (sent p.entries.entries)) };
}

fn outs(entry: &Entry) -> &[Packet]
    ensures { result.now ≡ outs_of entry.now.act }
{
    match &entry.act {
        Act::Step { outs, .. } => outs.as_slice(),
        _ => &[],
    }
}

fn put(places: &mut BTreeMap<u64, Place>, number: u64, place: Place) -> Result<(), NoMemory>
    ensures { OnOk result (places.new.entries ≡ insert_entry nat_cmp places.old.entries number place) }
{
    match places.insert(number, place) {
        Ok(_) => Ok(()),
        Err(_) => Err(NoMemory),
    }
}

// The packet that stands there.
fn standing(entries: &History, place: Place) -> Option<Packet>
    ensures { result ≡ standing entries.now.entries place }
{
    match entries.entry(place.entry) {
        None => None,
        Some(entry) => match outs(entry).get(place.packet) {
            None => None,
            Some(packet) => Some(packet.copy()),
        },
    }
}

// The packets of the entry stand behind those of these entries.
fn add_places(
    places: &mut BTreeMap<u64, Place>,
    entries: &History,
    entry: &Entry,
) -> Result<(), NoMemory>
    requires { ArePlaces entries.now.entries places.old.entries (by_number (sent entries.now.entries)) }
    ensures { OnOk result (ArePlaces (entries.now.entries ++ entry.now ∷ []) places.new.entries (by_number (sent (entries.now.entries ++ entry.now ∷ [])))) }
{
    let at = entries.len();
    let outs = outs(entry);
    for i in 0..outs.len() {
        let place = Place {
            entry: at,
            packet: i,
        };
        put(places, outs[i].number, place)?;
    }
    Ok(())
}

// The packets of the entry stand behind those of these entries, and there is room for it.
fn make_room(
    places: &mut BTreeMap<u64, Place>,
    entries: &mut History,
    entry: &Entry,
) -> Result<(), NoMemory>
    requires { ArePlaces entries.old.entries places.old.entries (by_number (sent entries.old.entries)) }
    ensures same { entries.new.entries ≡ entries.old.entries }
    ensures room { OnOk result (1 ≤ entries.new.room) }
    ensures places { OnOk result (ArePlaces (entries.old.entries ++ entry.now ∷ []) places.new.entries (by_number (sent (entries.old.entries ++ entry.now ∷ [])))) }
{
    add_places(places, entries, entry)?;
    entries.reserve(1)
}

impl Past {
    /// No entry.
    pub(crate) fn nothing(alloc: Global) -> Past
        ensures { result ≡ [] }
    {
        Past {
            entries: History::new(alloc),
            places: BTreeMap::new(alloc),
        }
    }

    /// Asks for memory for so many entries more.
    pub(crate) fn reserve(&mut self, more: u64) -> Result<(), NoMemory>
        ensures { self.new ≡ self.old }
    {
        self.entries.reserve(more)
    }

    /// How many entries there are.
    pub(crate) fn len(&self) -> u64
        ensures { result ≡ length self.now }
    {
        self.entries.len()
    }

    /// One more entry. Want of memory is the only error.
    pub(crate) fn with(self, entry: Entry) -> Result<Past, NoMemory>
        ensures { IfOk result (λ past. past ≡ self ++ entry ∷ []) }
    {
        let mut entries = self.entries;
        let mut places = self.places;
        match make_room(&mut places, &mut entries, &entry) {
            Ok(()) => {
                entries.push(entry);
                Ok(Past { entries, places })
            }
            // (handed to `drop`, each is given back by one call)
            Err(NoMemory) => {
                drop(entry);
                drop(entries);
                drop(places);
                Err(NoMemory)
            }
        }
    }

    fn packet_at(&self, number: u64) -> Option<Packet>
        ensures { result ≡ sent_at self.now number }
    {
        match self.places.get(&number) {
            None => None,
            Some(place) => standing(&self.entries, *place),
        }
    }

    /// A packet that these entries sent, by its number.
    pub(crate) fn packet(&self, text: &[u8]) -> Result<Packet, Fault>
        ensures { Gives result (option_and_then (sent_at self.now) (u64_of text.now)) }
    {
        let number = u64::read(text)?;
        self.packet_at(number).ok_or(Fault::Bad)
    }

    /// The entries themselves.
    pub(crate) fn into_history(self) -> History
        ensures { result.entries ≡ self }
    {
        self.entries
    }
}
