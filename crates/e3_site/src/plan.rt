// A step that a site has planned and not done.
ghost use Rattle.std.specs.Prelude.{◌≡◌, IfOk, map};
ghost use Rattle.e3_cards.specs.Tables.{AreCountable};
ghost use Rattle.e3_site.specs.past.Stepping.{IsMadeOf};
ghost use Rattle.e3_site.specs.SiteView.{entry_of_plan, step_kept};
ghost use Rattle.e3_world.specs.Moves.{unnumbered};

use crate::past::{Behind, Tables, behind};
use e3_step::plain::{unnumbered, unnumbered_input};
use e3_types::{Act, Copied, Entry, Input, List, NoMemory, Packet, Record, Told};
use e3_world::{Made, SiteStep};
use std::alloc::Global;
use std::marker::Model;

/// A step that a site has planned: its input, its records, packets and events, and what it makes of the site's tables. The
/// packets have number 0. It keeps the allocator that its lists came from.
#[derive(Drop)]
pub struct Plan {
    alloc: Global,
    step: SiteStep,
    behind: Behind,
}

impl Model for Plan {
    ghost use Rattle.e3_site.specs.SiteView.{PlanView};

    ghost Value = { PlanView };

    ghost view = { λ p. record { step = p.step; behind = p.behind } };
}

// The packets without numbers, in a list with room for just these: a list that grows by pushes has room for four at least.
fn unnumbered_outs(alloc: Global, outs: &[Packet]) -> Result<List<Packet>, NoMemory>
    ensures { IfOk result (λ out. out ≡ map unnumbered outs.now) }
{
    let Ok(mut out) = Vec::with_capacity(alloc, outs.len()) else {
        return Err(NoMemory);
    };
    for p in outs {
        if out.push(unnumbered(p)).is_err() {
            return Err(NoMemory);
        }
    }
    Ok(List::from_vec(out))
}

// The same items, with room for just these.
fn fitted<T: Drop>(items: List<T>) -> List<T>
    ensures { result ≡ items }
{
    let mut items = items.into_vec();
    items.shrink_to_fit();
    List::from_vec(items)
}

// The step as a site keeps it; `outs` are its packets, without their numbers.
fn kept(input: &Input, made: Made, outs: List<Packet>) -> SiteStep
    requires { outs ≡ map unnumbered made.outs }
    ensures { result ≡ step_kept input.now made }
{
    SiteStep {
        input: unnumbered_input(input),
        outs,
        records: fitted(made.records),
        told: fitted(made.told),
    }
}

impl Plan {
    /// The plan to do what an input made, at a site with these tables.
    pub(crate) fn new(
        alloc: Global,
        tables: &Tables,
        input: &Input,
        made: Made,
    ) -> Result<Plan, NoMemory>
        requires { AreCountable tables.now.cards }
        ensures kept { IfOk result (λ plan. plan.step ≡ step_kept input.now made) }
        ensures of_tables { IfOk result (λ plan. IsMadeOf tables.now plan.step plan.behind) }
    {
        match unnumbered_outs(alloc, made.outs.as_slice()) {
            Ok(outs) => Plan::of(alloc, tables, kept(input, made, outs)),
            Err(NoMemory) => {
                drop(made);
                Err(NoMemory)
            }
        }
    }

    // The plan to do this step.
    fn of(alloc: Global, tables: &Tables, step: SiteStep) -> Result<Plan, NoMemory>
        requires { AreCountable tables.now.cards }
        ensures kept { IfOk result (λ plan. plan.step ≡ step) }
        ensures of_tables { IfOk result (λ plan. IsMadeOf tables.now plan.step plan.behind) }
    {
        match behind(alloc, tables, &step) {
            Ok(behind) => Ok(Plan {
                alloc,
                step,
                behind,
            }),
            Err(NoMemory) => {
                drop(step);
                Err(NoMemory)
            }
        }
    }

    /// The records that the step adds to the log, in their order.
    pub fn records(&self) -> &[Record]
        ensures { result.now ≡ self.now.step.records }
    {
        self.step.records.as_slice()
    }

    /// The packets that the step sends, in their order.
    pub fn outs(&self) -> &[Packet]
        ensures { result.now ≡ self.now.step.outs }
    {
        self.step.outs.as_slice()
    }

    /// The events that the step tells, in their order.
    pub fn told(&self) -> &[Told]
        ensures { result.now ≡ self.now.step.told }
    {
        self.step.told.as_slice()
    }

    /// The Step entry of this owner with this input and copies of the plan's records, packets and events.
    pub fn entry(&self, owner: u32, input: &Input) -> Result<Entry, NoMemory>
        ensures { IfOk result (λ entry. entry ≡ entry_of_plan owner input.now self.now.step) }
    {
        let records = self.step.records.copied(self.alloc)?;
        let outs = self.step.outs.copied(self.alloc)?;
        let told = self.step.told.copied(self.alloc)?;
        let act = Act::Step {
            input: input.copy(),
            records,
            outs,
            told,
        };
        Ok(Entry { owner, act })
    }

    /// What the step makes of the tables.
    pub(crate) fn behind(&self) -> &Behind
        ensures { result.now ≡ self.now.behind }
    {
        &self.behind
    }

    /// The step itself, where it is not done.
    pub fn into_step(self) -> SiteStep
        ensures { result ≡ self.step }
    {
        let Plan { step, behind, .. } = self;
        drop(behind);
        step
    }

    /// The step, and what it makes of the tables.
    pub(crate) fn into_parts(self) -> (SiteStep, Behind)
        ensures step { result.0 ≡ self.step }
        ensures behind { result.1 ≡ self.behind }
    {
        (self.step, self.behind)
    }
}
