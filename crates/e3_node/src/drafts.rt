// A step that is ready to be made.
// Why what a function owns is handed to `drop`: docs/DECISIONS.md, "What owns much is handed to `drop`".
ghost use Rattle.std.specs.Prelude.{◌≡◌, ◌<◌, IfOk, length};
ghost use Rattle.e3_node.specs.Drafts.{IsAsBefore, IsDraft, IsReady};
ghost use Rattle.e3_site.specs.SiteView.{Stands};
ghost use Rattle.e3_world.specs.declared.lives.Incarnation.{Incarnation};

use crate::fitting::spelled;
use e3_site::{Plan, Site};
use e3_types::{Input, List, NoMemory, Record};
use e3_wire::{Shared, WirePass};
use std::alloc::Global;

/// All that a step, and the fall that may stand in its place, take memory for: the plan, whose lists the entry takes, the
/// spelling of what it records, and the inputs of the fall.
#[derive(Drop)]
pub(crate) struct Draft {
    pub plan: Plan,
    pub body: List<u8>,
    pub inputs: List<Input>,
}

// The spelling of what a plan records, and the inputs of the fall that may stand in its place.
fn parts_of(alloc: Global, plan: &Plan, input: &Input) -> Result<(List<u8>, List<Input>), NoMemory>
    ensures { IfOk result (λ parts. IsDraft input.now (record { plan = plan.now; body = parts.0; inputs = parts.1 })) }
{
    let body = spelled(alloc, plan.records())?;
    let mut inputs = List::new(alloc);
    let over = input.copy();
    inputs.push(over)?;
    Ok((body, inputs))
}

// The draft of this plan.
fn draft_of(alloc: Global, plan: Plan, input: &Input) -> Result<Draft, NoMemory>
    ensures plan { IfOk result (λ draft. draft.plan ≡ plan) }
    ensures draft { IfOk result (IsDraft input.now) }
{
    match parts_of(alloc, &plan, input) {
        Ok((body, inputs)) => Ok(Draft { plan, body, inputs }),
        Err(fault) => {
            drop(plan);
            Err(fault)
        }
    }
}

/// Takes all memory that the step of an input may want at a site in this incarnation, and for its entry.
pub(crate) fn planned(alloc: Global, site: &mut Site, input: &Input) -> Result<Draft, NoMemory>
    ghost now: { Incarnation }
    requires stands { Stands now site.old }
    requires few { length now.since < 4000000000 }
    ensures ready { IfOk result (IsReady now input.now site.old site.new) }
    ensures still { IsAsBefore site.old site.new }
{
    let plan = site.plan(input)?;
    match site.ready(&plan) {
        Ok(()) => draft_of(alloc, plan, input),
        Err(fault) => {
            drop(plan);
            Err(fault)
        }
    }
}

/// Takes all memory that the step of an input may want at the site, and for its entry. The records that the site rose with and
/// the history that is shared are passed on for the proof alone: they tell in which incarnation the site is.
pub(crate) fn prepare(
    site: &mut Site,
    _rose: &List<Record>,
    input: &Input,
    shared: &Shared,
) -> Result<Draft, NoMemory>
    ghost now: { Incarnation }
    requires stands { Stands now site.old }
    requires few { length now.since < 4000000000 }
    ensures ready { IfOk result (IsReady now input.now site.old site.new) }
    ensures still { IsAsBefore site.old site.new }
{
    planned(shared.alloc(), site, input)
}

/// The same by a worker, whose pass tells the history.
pub(crate) fn prepare_by_turns(
    alloc: Global,
    site: &mut Site,
    _rose: &List<Record>,
    input: &Input,
    _pass: &WirePass,
) -> Result<Draft, NoMemory>
    ghost now: { Incarnation }
    requires stands { Stands now site.old }
    requires few { length now.since < 4000000000 }
    ensures ready { IfOk result (IsReady now input.now site.old site.new) }
    ensures still { IsAsBefore site.old site.new }
{
    planned(alloc, site, input)
}
