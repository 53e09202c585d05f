// The names that the begins of a scenario bind to transactions.
ghost use Rattle.std.specs.Prelude.{◌≡◌, Option, OnOk, slice_get, option_to_list};
ghost use Rattle.e3_world.specs.Items.{begin_names, binds};
ghost use Rattle.e3_report.specs.Names.{no_naming, meant, begins, and_bound, and_begin, naming_by};

use crate::counts::one_more;
use e3_readings::step_items;
use e3_types::{Act, Entry, Input, Item, Name, NoMemory, Scenario, Told, Txn};
use e3_world::Bound;
use std::alloc::Global;
use std::collections::BTreeMap;
use std::marker::Model;

/// The name of the begin item for the site that has so many before it.
fn begin_name(items: &[Item], site: u32, before: u64) -> Option<Name>
    ensures { result ≡ slice_get (begin_names site items.now) before }
{
    let mut left = before;
    for item in items {
        if let Item::Begin { name, site: at, .. } = item {
            if *at == site {
                if left == 0 {
                    return Some(name.copy());
                }
                left -= 1;
            }
        }
    }
    None
}

/// The first event of a begin's step tells what its name is bound to.
fn bound_by(name: Option<Name>, events: &[Told]) -> Option<Bound>
    ensures { option_to_list result ≡ binds name events.now }
{
    match (name, events) {
        (Some(name), [Told::Began { txn }, ..]) => Some(Bound { name, txn: *txn }),
        _ => None,
    }
}

/// The number of the step that the entries are in, how many of its begins each site took, and the transactions of the
/// names that are bound so far.
#[derive(Drop)]
pub(crate) struct Names {
    number: u32,
    begun: BTreeMap<u32, u64>,
    bound: BTreeMap<Name, Txn>,
}

impl Model for Names {
    ghost use Rattle.e3_report.specs.Names.{Naming};

    ghost Value = { Naming };

    ghost view = { λ a. record { number = a.number; begun = a.begun.entries; bound = a.bound.entries } };
}

impl Names {
    /// Before the first entry nothing is bound.
    pub(crate) fn new(alloc: Global) -> Names
        ensures { result ≡ no_naming }
    {
        Names {
            number: 0,
            begun: BTreeMap::new(alloc),
            bound: BTreeMap::new(alloc),
        }
    }

    /// The transaction of a name.
    pub(crate) fn meant(&self, name: &Name) -> Option<Txn>
        ensures { result ≡ meant self.now name.now }
    {
        self.bound.get(name).copied()
    }

    /// How many begins of the step a site took.
    fn begins(&self, site: u32) -> u64
        ensures { result ≡ begins site self.now.begun }
    {
        self.begun.get(&site).copied().unwrap_or(0)
    }

    fn bind(&mut self, new: Option<Bound>) -> Result<(), NoMemory>
        ensures { OnOk result (self.new ≡ record self.old { bound = and_bound self.old.bound (option_to_list new) }) }
    {
        match new {
            Some(b) => match self.bound.insert(b.name, b.txn) {
                Ok(_) => Ok(()),
                Err(_) => Err(NoMemory),
            },
            None => Ok(()),
        }
    }

    /// A begin of a site, among the items of the step.
    fn begin(&mut self, site: u32, items: &[Item], events: &[Told]) -> Result<(), NoMemory>
        ensures { OnOk result (self.new ≡ and_begin site items.now events.now self.old) }
    {
        let before = self.begins(site);
        self.bind(bound_by(begin_name(items, site, before), events))?;
        match self.begun.insert(site, one_more(before)?) {
            Ok(_) => Ok(()),
            Err(_) => Err(NoMemory),
        }
    }

    /// One more entry of the history: a line begins a step, and a step with a begin may bind a name.
    pub(crate) fn enter(
        &mut self,
        alloc: Global,
        scenario: &Scenario,
        entry: &Entry,
    ) -> Result<(), NoMemory>
        ensures { OnOk result (self.new ≡ naming_by scenario.now self.old entry.now) }
    {
        match &entry.act {
            Act::Line { number } => {
                self.number = *number;
                self.begun = BTreeMap::new(alloc);
                Ok(())
            }
            Act::Step {
                input: Input::Begin { .. },
                told,
                ..
            } => self.begin(
                entry.owner,
                step_items(scenario, u64::from(self.number)),
                told.as_slice(),
            ),
            _ => Ok(()),
        }
    }
}
