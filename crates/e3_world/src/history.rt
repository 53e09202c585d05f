// The history of a run: its entries, in the order in which they happened.
ghost use Rattle.std.specs.Prelude.{◌≡◌, ◌++◌, ◌+◌, ◌≤◌, ◌<◌, ◌==◌, [], ◌∷◌, ℕ, length, IfSome, IfNone, OnOk, OnErr, slice_get, Some, count_by, option_copied};

use e3_types::{Entry, NoMemory};
use std::alloc::Global;
use std::marker::Model;

/// A growing list of entries with room for some more.
#[derive(Drop)]
pub struct History {
    entries: Vec<Entry>,
}

impl Model for History {
    ghost use Rattle.std.specs.Prelude.{◌-◌, vec_len, vec_capacity};
    ghost use Rattle.e3_world.specs.Roomy.{Roomy};

    ghost Value = { Roomy };

    ghost view = { λ h. record { entries = h.entries.items; room = vec_capacity h.entries - vec_len h.entries } };
}

impl History {
    /// A history without entries.
    pub fn new(alloc: Global) -> History
        ensures { result.entries ≡ [] }
    {
        History {
            entries: Vec::new(alloc),
        }
    }

    /// Makes room for so many entries more. Refused, it has the room that it had.
    pub fn reserve(&mut self, more: u64) -> Result<(), NoMemory>
        ensures entries { self.new.entries ≡ self.old.entries }
        ensures grows { self.old.room ≤ self.new.room }
        ensures ok { OnOk result (more ≤ self.new.room) }
    {
        match self.entries.try_reserve(more as usize) {
            Ok(()) => Ok(()),
            Err(_) => Err(NoMemory),
        }
    }

    /// Adds an entry at the end.
    pub fn push(&mut self, entry: Entry)
        requires { 1 ≤ self.old.room }
        ensures entries { self.new.entries ≡ self.old.entries ++ entry ∷ [] }
        ensures room { self.old.room ≤ self.new.room + 1 }
    {
        let _ = self.entries.push(entry);
    }

    /// The number of entries.
    pub fn len(&self) -> u64
        ensures { result ≡ length self.now.entries }
    {
        self.entries.len() as u64
    }

    /// The entry at this place, counted from 0; none past the end.
    pub fn entry(&self, at: u64) -> Option<&Entry>
        ensures { option_copied result ≡ slice_get self.now.entries at }
    {
        self.entries.get(at as usize)
    }

    /// All entries, the oldest first.
    pub fn as_slice(&self) -> &[Entry]
        ensures { result.now ≡ self.now.entries }
    {
        self.entries.as_slice()
    }

    /// How many entries an owner has.
    pub fn own_count(&self, owner: u32) -> u64
        ensures { result ≡ count_by (λ e. e.owner == owner) self.now.entries }
    {
        self.entries.iter().filter(|e| e.owner == owner).count() as u64
    }
}
