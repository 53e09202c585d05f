// What the items so far come to.
ghost use Rattle.std.specs.Prelude.{◌≡◌, ◌++◌, ◌+◌, ◌||◌, nat_le, length, IfOk, OnOk};
ghost use Rattle.std.specs.List.{list_any};
ghost use Rattle.e3_types.specs.Sets.{is_within};
ghost use Rattle.e3_world.specs.Given.{count_ops, close_step};
ghost use Rattle.e3_scenario.specs.Faults.{has_name, sites_begun, take_item};
ghost use Rattle.e3_scenario.specs.Scenarios.{no_items_yet};

use crate::names::{Begins, Begun, Operations};
use e3_types::{Item, List, Name, NoMemory, SiteSet};
use std::alloc::Global;
use std::marker::Model;
use std::mem;

const MOST_BEGINS: u64 = 4_000;

/// What the items so far come to: the begins of earlier steps and of this one, a name for each operation, and the present
/// parts of the network.
#[derive(Drop)]
pub struct SoFar {
    earlier: Begins,
    fresh: List<Begun>,
    ops: Operations,
    parts: List<SiteSet>,
}

impl Model for SoFar {
    ghost use Rattle.e3_world.specs.Given.{ItemsSoFar};

    ghost Value = { ItemsSoFar };

    ghost view = { λ s. record { earlier = s.earlier; fresh = s.fresh; ops = s.ops; parts = s.parts } };
}

fn has_name(begun: &[Begun], name: &Name) -> bool
    ensures { result ≡ has_name begun.now name.now }
{
    begun.iter().any(|b| name.is_same(&b.name))
}

impl SoFar {
    /// Before the first item: no name is begun, and these sites are one part.
    pub fn nothing(alloc: Global, all: SiteSet) -> Result<SoFar, NoMemory>
        ensures { IfOk result (λ so_far. so_far ≡ no_items_yet all) }
    {
        let mut parts = List::new(alloc);
        parts.push(all)?;
        Ok(SoFar {
            earlier: Begins::none(alloc),
            fresh: List::new(alloc),
            ops: Operations::none(alloc),
            parts,
        })
    }

    /// No more begins may come.
    pub fn is_full(&self) -> bool
        ensures { result ≡ nat_le 4000 (length self.now.earlier + length self.now.fresh) }
    {
        let earlier = self.earlier.len();
        MOST_BEGINS <= earlier || MOST_BEGINS - earlier <= self.fresh.len()
    }

    /// The name was begun, in an earlier step or in this one.
    #[tactic(auto, using(crate::proofs::Indexes::begun_there))]
    pub fn is_begun(&self, name: &Name) -> bool
        ensures { result ≡ (has_name self.now.earlier name.now || has_name self.now.fresh name.now) }
    {
        self.earlier.sites_of(name).is_some() || has_name(self.fresh.as_slice(), name)
    }

    /// The sites of the transaction that the name was begun for in an earlier step.
    pub fn sites_of(&self, name: &Name) -> Option<SiteSet>
        ensures { result ≡ sites_begun self.now.earlier name.now }
    {
        self.earlier.sites_of(name)
    }

    /// How many operations of the name there are.
    pub fn operations(&self, name: &Name) -> u64
        ensures { result ≡ count_ops self.now.ops name.now }
    {
        self.ops.count(name)
    }

    /// The sites lie in one part of the network.
    pub fn is_in_one_part(&self, sites: SiteSet) -> bool
        ensures { result ≡ list_any (is_within sites) self.now.parts }
    {
        self.parts.as_slice().iter().any(|part| sites.within(*part))
    }

    // The network has these parts from now on.
    fn set_parts(&mut self, alloc: Global, parts: &[SiteSet]) -> Result<(), NoMemory>
        ensures { OnOk result (self.new ≡ record self.old { parts = parts.now }) }
    {
        let mut now = List::new(alloc);
        now.extend(parts)?;
        self.parts = now;
        Ok(())
    }

    /// One more item is taken in.
    pub fn take_item(&mut self, alloc: Global, all: SiteSet, item: &Item) -> Result<(), NoMemory>
        ensures { OnOk result (self.new ≡ take_item all self.old item.now) }
    {
        match item {
            Item::Begin { name, sites, .. } => self.fresh.push(Begun {
                name: name.copy(),
                sites: *sites,
            }),
            Item::Read { name, .. } => self.ops.push(name),
            Item::Write { name, .. } => self.ops.push(name),
            Item::Split { parts } => self.set_parts(alloc, parts.as_slice()),
            Item::Merge => self.set_parts(alloc, &[all]),
            _ => Ok(()),
        }
    }

    /// A step ends: its begins are earlier ones from now on.
    pub fn close(&mut self, alloc: Global) -> Result<(), NoMemory>
        ensures { OnOk result (self.new ≡ close_step self.old) }
    {
        let fresh = mem::replace(&mut self.fresh, List::new(alloc));
        append(&mut self.earlier, fresh)
    }
}

fn append(earlier: &mut Begins, fresh: List<Begun>) -> Result<(), NoMemory>
    ensures { OnOk result (earlier.new ≡ earlier.old ++ fresh) }
{
    for begun in fresh.into_vec() {
        earlier.push(begun)?;
    }
    Ok(())
}
