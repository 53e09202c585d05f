// Marks, what is stored of them, and what is promised by them.
use e3_types::{Entry, Scenario};

/// A mark of what the workers share. No value of it is made: it is how contracts see that.
#[derive(Drop)]
pub enum Mark {
    /// The first mark: the scenario that is played, and how many entries the history may have.
    Start { scenario: Scenario, most: u32 },
    /// The next entry of the history.
    Entered { entry: Entry },
    /// A place for one entry is promised to the owner, and room for so many packets of it.
    Place { owner: u32, outs: u32 },
    /// All that is promised to the owner falls away, places and room.
    Freed { owner: u32 },
}

/// What is promised to an owner: places for entries, and room for packets.
#[derive(Clone, Copy, Drop)]
pub struct Note {
    pub places: u64,
    pub room: u64,
}

/// What is stored of a mark behind the first; of an entry nothing more, since it stands in the history.
#[derive(Clone, Copy, Drop)]
pub enum Stored {
    /// The next entry of the history.
    Entered,
    /// A place for one entry is promised to the owner, and room for so many packets of it.
    Place { owner: u32, outs: u32 },
    /// All that is promised to the owner falls away, places and room.
    Freed { owner: u32 },
}
