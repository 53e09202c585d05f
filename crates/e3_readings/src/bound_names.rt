// The names that are bound, with a map that finds the transaction of a name.
ghost use Rattle.std.specs.Prelude.{◌≡◌, ◌==◌, ◌++◌, ◌∷◌, [], None, count_by, fold, IfOk, option_copied};
ghost use Rattle.e3_readings.specs.Bindings.{nothing_bound};
ghost use Rattle.e3_world.specs.Items.{binds, last_bound};

use e3_types::{List, Name, NoMemory, Told, Txn};
use e3_world::Bound;
use std::alloc::Global;
use std::collections::BTreeMap;
use std::marker::Model;

/// What the entries so far have bound: the number of the step that they are in, the sites of its begins so far, in order,
/// and the names, in the order of their begins. Contracts see it as the binding of the definitions.
#[derive(Drop)]
pub struct BoundNames {
    number: u32,
    begun_at: List<u32>,
    bound: List<Bound>,
    // The last transaction that is bound to each name.
    lasts: BTreeMap<Name, Txn>,
}

impl Model for BoundNames {
    ghost use Rattle.e3_world.specs.declared.names.Binding.{Binding};
    ghost use Rattle.e3_readings.specs.Lasts.{AreLasts};

    ghost Value = { Binding };

    ghost view = { λ a. record { number = a.number; begun_at = a.begun_at; bound = a.bound } };

    ghost invariant = { λ a. AreLasts a.lasts.entries a.bound };
}

impl BoundNames {
    /// Before the first entry.
    pub(crate) fn none(alloc: Global) -> BoundNames
        ensures { result ≡ nothing_bound }
    {
        BoundNames {
            number: 0,
            begun_at: List::new(alloc),
            bound: List::new(alloc),
            lasts: BTreeMap::new(alloc),
        }
    }

    /// The number of the step that the entries are in.
    pub(crate) fn number(&self) -> u32
        ensures { result ≡ self.now.number }
    {
        self.number
    }

    /// How many begins of the step this site took.
    pub(crate) fn begins(&self, site: u32) -> usize
        ensures { result ≡ count_by (λ s. s == site) self.now.begun_at }
    {
        self.begun_at
            .as_slice()
            .iter()
            .filter(|s| **s == site)
            .count()
    }

    /// The last transaction that is bound to a name.
    pub(crate) fn meant(&self, name: &Name) -> Option<Txn>
        ensures { result ≡ fold (last_bound name.now) None self.now.bound }
    {
        self.lasts.get(name).copied()
    }

    /// The step of this number begins.
    pub(crate) fn begin_step(&mut self, alloc: Global, number: u32)
        ensures { self.new ≡ record { number = number; begun_at = []; bound = self.old.bound } }
    {
        self.number = number;
        self.begun_at = List::new(alloc);
    }

    /// One more begin of a site.
    pub(crate) fn begin_at(&mut self, site: u32) -> Result<(), NoMemory>
        ensures { IfOk result (λ u. self.new ≡ record { number = self.old.number; begun_at = self.old.begun_at ++ site ∷ []; bound = self.old.bound }) }
    {
        self.begun_at.push(site)
    }

    // One more name that is bound.
    fn push(&mut self, bound: Bound) -> Result<(), NoMemory>
        ensures { IfOk result (λ u. self.new ≡ record { number = self.old.number; begun_at = self.old.begun_at; bound = self.old.bound ++ bound ∷ [] }) }
    {
        let name = bound.name.copy();
        let txn = bound.txn;
        self.bound.push(bound)?;
        match self.lasts.insert(name, txn) {
            Ok(_) => Ok(()),
            Err(_) => {
                self.bound.remove(self.bound.len() - 1);
                Err(NoMemory)
            }
        }
    }

    /// The name that a begin binds, where its step tells the transaction that it began.
    pub(crate) fn add(&mut self, name: Option<&Name>, told: &[Told]) -> Result<(), NoMemory>
        ensures { IfOk result (λ u. self.new ≡ record {
          number = self.old.number;
          begun_at = self.old.begun_at;
          bound = self.old.bound ++ binds (option_copied name.entry) told.now;
        }) }
    {
        match (name, told) {
            (Some(name), [Told::Began { txn }, ..]) => self.push(Bound {
                name: name.copy(),
                txn: *txn,
            }),
            _ => Ok(()),
        }
    }
}
