// The names of transactions that begins and operations have given so far.
ghost use Rattle.std.specs.Prelude.{◌≡◌, ◌++◌, ◌∷◌, [], length, OnOk};
ghost use Rattle.e3_world.specs.Given.{count_ops};
ghost use Rattle.e3_scenario.specs.Faults.{sites_begun};

use e3_types::{List, Name, NoMemory, SiteSet};
use std::alloc::Global;
use std::collections::BTreeMap;
use std::marker::Model;

/// A name that was begun, and the sites of its transaction.
#[derive(Drop)]
pub struct Begun {
    pub name: Name,
    pub sites: SiteSet,
}

impl Model for Begun {
    ghost use Rattle.e3_world.specs.Given.{BegunName};

    ghost Value = { BegunName };

    ghost view = { λ b. record { name = b.name; sites = b.sites } };
}

/// Begins in their order. A map finds the sites by a name, so that a scenario of many begins is read in little time.
#[derive(Drop)]
pub struct Begins {
    begun: List<Begun>,
    sites: BTreeMap<Name, SiteSet>,
}

impl Model for Begins {
    ghost use Rattle.std.specs.Prelude.{List as Items};
    ghost use Rattle.e3_world.specs.Given.{BegunName};
    ghost use Rattle.e3_scenario.specs.Indexes.{AreSites};

    ghost Value = { Items BegunName };

    ghost view = { λ b. b.begun };

    ghost invariant = { λ b. AreSites b.sites.entries b.begun };
}

impl Begins {
    /// No begin.
    pub fn none(alloc: Global) -> Begins
        ensures { result ≡ [] }
    {
        Begins {
            begun: List::new(alloc),
            sites: BTreeMap::new(alloc),
        }
    }

    /// How many begins there are.
    pub fn len(&self) -> u64
        ensures { result ≡ length self.now }
    {
        self.begun.len()
    }

    /// The sites of the transaction that the name was first begun for.
    pub fn sites_of(&self, name: &Name) -> Option<SiteSet>
        ensures { result ≡ sites_begun self.now name.now }
    {
        self.sites.get(name).copied()
    }

    /// One more begin. Want of memory is the only error.
    pub fn push(&mut self, begun: Begun) -> Result<(), NoMemory>
        ensures { OnOk result (self.new ≡ self.old ++ begun ∷ []) }
    {
        let name = begun.name.copy();
        let sites = begun.sites;
        let known = self.sites.contains_key(&name);
        self.begun.push(begun)?;
        if known {
            return Ok(());
        }
        match self.sites.insert(name, sites) {
            Ok(_) => Ok(()),
            Err(_) => {
                self.begun.remove(self.begun.len() - 1);
                Err(NoMemory)
            }
        }
    }
}

/// The names of operations in their order. A map counts those of a name.
#[derive(Drop)]
pub struct Operations {
    names: List<Name>,
    counts: BTreeMap<Name, u64>,
}

impl Model for Operations {
    ghost use Rattle.std.specs.Prelude.{ℕ, List as Items};
    ghost use Rattle.e3_scenario.specs.Indexes.{AreCounts};

    ghost Value = { Items (Items ℕ) };

    ghost view = { λ o. o.names };

    ghost invariant = { λ o. AreCounts o.counts.entries o.names };
}

impl Operations {
    /// No operation.
    pub fn none(alloc: Global) -> Operations
        ensures { result ≡ [] }
    {
        Operations {
            names: List::new(alloc),
            counts: BTreeMap::new(alloc),
        }
    }

    /// How many operations of the name there are.
    pub fn count(&self, name: &Name) -> u64
        ensures { result ≡ count_ops self.now name.now }
    {
        self.counts.get(name).copied().unwrap_or(0)
    }

    /// One more operation of the name. Want of memory is the only error.
    pub fn push(&mut self, name: &Name) -> Result<(), NoMemory>
        ensures { OnOk result (self.new ≡ self.old ++ name.now ∷ []) }
    {
        let count = self.counts.get(name).copied().unwrap_or(0);
        self.names.push(name.copy())?;
        let most = self.names.len();
        match self.counts.insert(name.copy(), count + 1) {
            Ok(_) => Ok(()),
            Err(_) => {
                self.names.remove(most - 1);
                Err(NoMemory)
            }
        }
    }
}
