// A site while it is up.
ghost use Rattle.std.specs.Prelude.{◌≡◌, ◌<◌, ◌^◌, IfOk, OnOk, List as Items, length};
ghost use Rattle.e3_readings.specs.Opens.{open_in};
ghost use Rattle.e3_site.specs.SiteView.{HasRoomFor, IsPlanOf, Stands, count_on, planned_step, risen_with, with_step};
ghost use Rattle.e3_site.specs.StandsFor.{ListsOpen, PlansStep, StandsOn, StandsRisen, StandsStill};
ghost use Rattle.e3_types.specs.declared.entries.Input.{Input as Taken};
ghost use Rattle.e3_types.specs.declared.records.Record.{Record};
ghost use Rattle.e3_world.specs.declared.lives.Incarnation.{Incarnation};
ghost use Rattle.e3_world.specs.Lives.{life_of};
ghost use Rattle.e3_world.specs.Logs.{logged_inc};

use crate::past::{Tables, apply, open_with, ready, step_with};
use crate::plan::Plan;
use e3_types::{Input, List, NoMemory, Txn};
use e3_world::SiteStep;
use std::alloc::Global;
use std::marker::Model;

/// A site while it is up: the weights of all sites, that of site 1 first; its own number; how many inputs it took; and tables
/// of what is read of the log that it rose with and of its steps since. It keeps none of them, and the allocator that it was
/// made with.
#[derive(Drop)]
pub struct Site {
    alloc: Global,
    weights: List<u32>,
    site: u32,
    inputs: u32,
    tables: Tables,
}

impl Model for Site {
    ghost use Rattle.std.specs.Coded.{codes};
    ghost use Rattle.e3_site.specs.contracts.past.tables.Tables as t;
    ghost use Rattle.e3_site.specs.SiteView.{SiteView};

    ghost Value = { SiteView };

    ghost coded = { Prim.hlevel (codes, t.the_row.coded) };

    ghost view = { λ s. record { weights = s.weights; site = s.site; inputs = s.inputs; tables = s.tables } };
}

fn count_on(count: u32) -> u32
    ensures { result ≡ count_on count }
{
    if count < u32::MAX { count + 1 } else { count }
}

impl Site {
    /// A site that took no input, with these tables. Where they are those of a log, it rose with it and made no step since.
    pub fn rise(alloc: Global, weights: List<u32>, site: u32, tables: Tables) -> Site
        ensures risen { result ≡ record { weights = weights; site = site; inputs = 0; tables = tables } }
        ensures stands { (log : Items Record) → Stands (risen_with log) result → StandsRisen log result }
    {
        Site {
            alloc,
            weights,
            site,
            inputs: 0,
            tables,
        }
    }

    /// How many inputs the site took since it rose. A site that took 4,294,967,295 counts no further.
    pub fn inputs(&self) -> u32
        ensures { result ≡ self.now.inputs }
    {
        self.inputs
    }

    fn planned(&self, input: &Input) -> Result<Plan, NoMemory>
        ghost now: { Incarnation }
        requires stands { Stands now self.now }
        requires few { length now.since < 4000000000 }
        ensures made { IfOk result (λ plan. plan.step ≡ planned_step now self.now input.now) }
        ensures of_site { IfOk result (λ plan. IsPlanOf plan self.now) }
        ensures few { IfOk result (λ plan. length plan.step.outs < 2 ^ 32) }
    {
        let tables = &self.tables;
        let made = step_with(
            self.alloc,
            self.weights.as_slice(),
            self.site,
            tables,
            input,
        )?;
        Plan::new(self.alloc, tables, input, made)
    }

    /// What an input makes the site do, where it made fewer than 4,000,000,000 steps since it rose: 32 bits count the packets,
    /// since no more requests are granted than steps were made. The number of a delivered packet is nothing to it. Want of
    /// memory is the only error.
    pub fn plan(&self, input: &Input) -> Result<Plan, NoMemory>
        ghost now: { Incarnation }
        requires stands { Stands now self.now }
        requires few { length now.since < 4000000000 }
        ensures made { IfOk result (λ plan. plan.step ≡ planned_step now self.now input.now) }
        ensures of_site { IfOk result (λ plan. IsPlanOf plan self.now) }
        ensures stands { IfOk result (λ plan. PlansStep now self.now input.now plan.step) }
        ensures few { IfOk result (λ plan. length plan.step.outs < 2 ^ 32) }
    {
        self.planned(input)
    }

    /// Makes room for what a plan makes of the tables. It changes nothing but spare room.
    pub fn ready(&mut self, plan: &Plan) -> Result<(), NoMemory>
        ensures same { self.new ≡ record self.old { tables = self.new.tables } }
        ensures stand { (now : Incarnation) → Stands now self.old → Stands now self.new }
        ensures stands { StandsStill self.old self.new }
        ensures of_site { (now : Incarnation) → Stands now self.old → IsPlanOf plan.now self.old → IsPlanOf plan.now self.new }
        ensures ok { OnOk result (HasRoomFor plan.now self.new) }
    {
        ready(self.alloc, &mut self.tables, plan.behind())
    }

    /// Does the step of a plan of this site, and gives it back. The site stands for the incarnation with that step, if the step
    /// is what some input makes it do there. It takes no memory.
    pub fn apply(&mut self, plan: Plan) -> SiteStep
        requires of_site { IsPlanOf plan self.old }
        requires room { HasRoomFor plan self.old }
        ensures step { result ≡ plan.step }
        ensures done { self.new ≡ record self.old { inputs = count_on self.old.inputs; tables = self.new.tables } }
        ensures stand { (now : Incarnation) (input : Taken) → Stands now self.old → plan.step ≡ planned_step now self.old input → Stands (with_step now plan.step) self.new }
        ensures stands { StandsOn self.old plan.step self.new }
    {
        let (step, behind) = plan.into_parts();
        apply(&mut self.tables, &step, behind);
        self.inputs = count_on(self.inputs);
        step
    }

    /// The undecided transactions that the site knows, each once and ascending.
    pub fn open_txns(&self) -> Result<List<Txn>, NoMemory>
        ensures listed { IfOk result (λ txns. (now : Incarnation) → Stands now self.now → txns ≡ open_in self.now.site (life_of now)) }
        ensures stands { IfOk result (ListsOpen self.now) }
    {
        open_with(self.alloc, &self.tables)
    }

    /// The weights of all sites, that of site 1 first.
    pub fn weights(&self) -> &[u32]
        ensures { result.now ≡ self.now.weights }
    {
        self.weights.as_slice()
    }

    /// The tables of the site.
    pub fn tables(&self) -> &Tables
        ensures { result.now ≡ self.now.tables }
    {
        &self.tables
    }

    /// The number of the site.
    pub fn site(&self) -> u32
        ensures { result ≡ self.now.site }
    {
        self.site
    }

    /// The incarnation of the site: that of the last Inc of the log that it rose with, 0 where there is none.
    pub fn inc(&self) -> u32
        ensures { (now : Incarnation) → Stands now self.now → result ≡ logged_inc now.rose }
    {
        self.tables.cards.inc
    }
}
