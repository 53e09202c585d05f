// What is stored of marks, and room for more of them beside those that are promised. What is promised keeps its room, whatever
// is refused.
ghost use Rattle.std.specs.Prelude.{◌≡◌, ◌+◌, ◌-◌, ◌*◌, ◌^◌, ◌<◌, ◌≤◌, ◌++◌, ◌∷◌, [], OnOk, length, replicate, vec_capacity};
ghost use Rattle.e3_wire.specs.declared.marks.Stored.TheVariants as kind;

use crate::Stored;
use e3_types::{Entry, NoMemory};
use e3_world::History;
use std::alloc::Global;

// The least room that is asked for at once.
const FEW: u64 = 64;

/// The history, and what is stored of its marks.
#[derive(Drop)]
pub(crate) struct Store {
    pub(crate) history: History,
    pub(crate) stored: Vec<Stored>,
    // For how many more entries the history has room at least.
    pub(crate) spare: u64,
}

// Makes room in a history, where so many places in it are promised, for so many entries more than these. `spare` counts the
// room that is known of.
fn make_entry_room(
    history: &mut History,
    spare: &mut u64,
    places: u64,
    more: u32,
) -> Result<(), NoMemory>
    requires known { spare.old ≤ history.old.room }
    requires promised { places ≤ spare.old }
    requires few { (length history.old.entries < 2 ^ 32) × (places < 2 ^ 32) }
    ensures entries { history.new.entries ≡ history.old.entries }
    ensures known { spare.new ≤ history.new.room }
    ensures promised { places ≤ spare.new }
    ensures ok { OnOk result (places + more ≤ spare.new) }
{
    let wanted = places + u64::from(more);
    if wanted <= *spare {
        return Ok(());
    }
    let room = history.len() + wanted + FEW;
    history.reserve(room)?;
    *spare = room;
    Ok(())
}

impl Store {
    /// No entry and no mark. It takes no memory.
    pub(crate) fn new(alloc: Global) -> Store
        ensures entries { result.history.entries ≡ [] }
        ensures marks { result.stored.items ≡ [] }
        ensures spare { result.spare ≡ 0 }
    {
        Store {
            history: History::new(alloc),
            stored: Vec::new(alloc),
            spare: 0,
        }
    }

    /// Makes room for so many marks more than those stored and promised: each an entry, or a place and later its entry.
    pub(crate) fn make_room(&mut self, places: u64, more: u32) -> Result<(), NoMemory>
        requires known { self.old.spare ≤ self.old.history.room }
        requires promised { places ≤ self.old.spare }
        requires few { (length self.old.history.entries < 2 ^ 32) × (places < 2 ^ 32) }
        ensures entries { self.new.history.entries ≡ self.old.history.entries }
        ensures known { self.new.spare ≤ self.new.history.room }
        ensures promised { places ≤ self.new.spare }
        ensures marks { self.new.stored.items ≡ self.old.stored.items }
        ensures grows { vec_capacity self.old.stored ≤ vec_capacity self.new.stored }
        ensures entry { OnOk result (places + more ≤ self.new.spare) }
        ensures mark { OnOk result (length self.old.stored.items + (places + 2 * more) ≤ vec_capacity self.new.stored) }
    {
        make_entry_room(&mut self.history, &mut self.spare, places, more)?;
        match self.stored.try_reserve(places as usize + 2 * more as usize) {
            Ok(()) => Ok(()),
            Err(_) => Err(NoMemory),
        }
    }

    /// Adds so many promises of a place without room to an owner, for which there is room. It takes no memory.
    pub(crate) fn push_places(&mut self, owner: u32, count: u32)
        requires room { length self.old.stored.items + count ≤ vec_capacity self.old.stored }
        ensures history { self.new.history ≡ self.old.history }
        ensures spare { self.new.spare ≡ self.old.spare }
        ensures marks { self.new.stored.items ≡ self.old.stored.items ++ replicate count (kind.Place owner 0) }
        ensures capacity { vec_capacity self.old.stored ≤ vec_capacity self.new.stored }
    {
        let marks = self.stored.len() + count as usize;
        // There is room, so it is not refused.
        let _filled = self.stored.resize(marks, Stored::Place { owner, outs: 0 });
    }

    /// Adds an entry and its mark, for which there is room. It takes no memory.
    pub(crate) fn push(&mut self, entry: Entry)
        requires known { self.old.spare ≤ self.old.history.room }
        requires entry { 1 ≤ self.old.spare }
        requires mark { length self.old.stored.items < vec_capacity self.old.stored }
        ensures entries { self.new.history.entries ≡ self.old.history.entries ++ entry ∷ [] }
        ensures spare { self.new.spare ≡ self.old.spare - 1 }
        ensures known { self.new.spare ≤ self.new.history.room }
        ensures marks { self.new.stored.items ≡ self.old.stored.items ++ kind.Entered ∷ [] }
        ensures capacity { vec_capacity self.new.stored ≡ vec_capacity self.old.stored }
    {
        self.history.push(entry);
        self.spare -= 1;
        self.stored.push_reserved(Stored::Entered);
    }
}
