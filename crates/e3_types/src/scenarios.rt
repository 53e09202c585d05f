// Scenarios: what a run is to do.
ghost use Rattle.std.specs.Prelude.{◌≡◌};

use crate::{Key, List, Name, SiteSet, Val};

/// What a disk that stops inside a write leaves of it: nothing, the first half, all, or this byte throughout.
#[derive(Clone, Copy)]
pub enum Leave {
    None,
    Half,
    All,
    Junk(u8),
}

/// An item of a step. Transactions go by the name that their begin binds.
#[derive(Drop)]
pub enum Item {
    Begin {
        name: Name,
        site: u32,
        sites: SiteSet,
    },
    Read {
        name: Name,
        key: Key,
    },
    Write {
        name: Name,
        key: Key,
        val: Val,
    },
    Commit {
        name: Name,
    },
    Cancel {
        name: Name,
    },
    Expire {
        site: u32,
        name: Name,
    },
    Elect {
        site: u32,
        name: Name,
        sites: SiteSet,
    },
    Recover {
        sites: SiteSet,
    },
    Split {
        parts: List<SiteSet>,
    },
    Merge,
    Crash {
        site: u32,
    },
    Restart {
        site: u32,
    },
    Stop {
        site: u32,
        count: u32,
        leave: Leave,
    },
}

/// A row that a site has from the start.
#[derive(Drop)]
pub struct KeyRow {
    pub key: Key,
    pub val: Val,
}

impl KeyRow {
    /// An equal row.
    pub fn copy(&self) -> KeyRow
        ensures { result ≡ self.now }
    {
        KeyRow {
            key: self.key.copy(),
            val: self.val.copy(),
        }
    }
}

/// A scenario: the weights of the sites, that of site 1 first; their first rows; how many packets of a hundred are
/// lost, and how many come twice; the luck from which each packet's fate is taken; and the steps, each a list of items.
#[derive(Drop)]
pub struct Scenario {
    pub weights: List<u32>,
    pub rows: List<KeyRow>,
    pub loss: u32,
    pub repeat: u32,
    pub luck: u64,
    pub steps: List<List<Item>>,
}
