// A step of a site.
ghost use Rattle.std.specs.Prelude.{◌≡◌, ◌≤◌, ◌&&◌, ◌++◌, ◌∷◌, [], true, suc, length, IfOk};
ghost use Rattle.e3_judge.specs.audit.Seats.{SeatStands, Stands};
ghost use Rattle.e3_judge.specs.Equal.{same_list, same_packet, same_record, same_told};
ghost use Rattle.e3_net.specs.Stands.{behind_input};
ghost use Rattle.e3_net.specs.Traffic.{sends_all};
ghost use Rattle.e3_site.specs.SiteView.{IsPlanOf, step_kept};
ghost use Rattle.e3_site.specs.StandsFor.{StandsFor};
ghost use Rattle.e3_types.specs.declared.entries.Act.TheVariants as act;
ghost use Rattle.e3_world.specs.Items.{is_up_at};
ghost use Rattle.e3_world.specs.Legal.{entry_of, made_by, numbered};
ghost use Rattle.e3_world.specs.Lives.{incarnation_of};
ghost use Rattle.e3_world.specs.Moves.{moves_of};
ghost use Rattle.e3_world.specs.declared.lives.Incarnation.{Incarnation};
ghost use Rattle.e3_world.specs.Packets.{sent as sent_in};

use crate::audit::auditor::Auditor;
use crate::audit::falling::leave;
use crate::audit::seat::{Being, Seat};
use crate::counts::count_on;
use crate::{Prefix, are_numbered, same_list};
use e3_net::Net;
use e3_site::{Plan, Site};
use e3_types::{Input, List, NoMemory, Packet, Record, Told};
use std::alloc::Global;

/// A step as its entry has it, and how many packets were sent before it.
#[derive(Clone, Copy)]
pub(crate) struct SeenStep<'a> {
    pub site: u32,
    pub sent: u64,
    pub input: &'a Input,
    pub records: &'a [Record],
    pub outs: &'a [Packet],
    pub told: &'a [Told],
}

// What the step has is what is planned, its packets numbered behind those that were sent.
fn is_as_planned(plan: &Plan, step: &SeenStep<'_>) -> bool
    ensures { result ≡ (same_list same_record step.now.records.now plan.now.step.records
        && same_list same_packet step.now.outs.now (numbered (suc step.now.sent) plan.now.step.outs) && same_list same_told step.now.told.now plan.now.step.told) }
{
    same_list(step.records, plan.records())
        && are_numbered(step.outs, step.sent, plan.outs())
        && same_list(step.told, plan.told())
}

/// What the input makes the site do that this value stands for.
pub(crate) fn plan_at(
    up: &Site,
    prefix: &Prefix<'_>,
    _site: u32,
    input: &Input,
) -> Result<Plan, NoMemory>
    ghost now: { Incarnation }
    requires stands { StandsFor prefix.now.scenario.now prefix.now.entries.now _site up.now }
    requires now { now ≡ incarnation_of (moves_of prefix.now.scenario.now prefix.now.entries.now _site) }
    ensures made { IfOk result (λ plan. plan.step ≡ step_kept input.now (made_by prefix.now.scenario.now prefix.now.entries.now _site input.now)) }
    ensures of_site { IfOk result (λ plan. IsPlanOf plan up.now) }
{
    count_on(prefix.entries.len() as u64)?;
    up.plan(input)
}

// The site does what it plans, where that is what the step has.
fn take(up: &mut Site, prefix: &Prefix<'_>, step: &SeenStep<'_>) -> Result<bool, NoMemory>
    requires stands { StandsFor prefix.now.scenario.now prefix.now.entries.now step.now.site up.old }
    requires sent { step.now.sent ≡ length (sent_in prefix.now.entries.now) }
    ensures made { IfOk result (λ on. on ≡ true → record { owner = step.now.site; act = act.Step step.now.input.now step.now.records.now step.now.outs.now step.now.told.now } ≡ entry_of prefix.now.scenario.now prefix.now.entries.now step.now.site step.now.input.now) }
    ensures stands { IfOk result (λ on. on ≡ true → StandsFor prefix.now.scenario.now (prefix.now.entries.now ++ entry_of prefix.now.scenario.now prefix.now.entries.now step.now.site step.now.input.now ∷ []) step.now.site up.new) }
{
    let plan = plan_at(up, prefix, step.site, step.input)?;
    // (handed to `drop`, a plan or a step is given back by one call)
    if !is_as_planned(&plan, step) {
        drop(plan);
        return Ok(false);
    }
    match up.ready(&plan) {
        Ok(()) => {
            drop(up.apply(plan));
            Ok(true)
        }
        Err(NoMemory) => {
            drop(plan);
            Err(NoMemory)
        }
    }
}

// The site takes the step, where it is up, and what is kept of it goes on.
fn step_at(seat: &mut Seat, prefix: &Prefix<'_>, step: &SeenStep<'_>) -> Result<bool, NoMemory>
    requires stands { SeatStands prefix.now.scenario.now prefix.now.entries.now step.now.site seat.old }
    requires sent { step.now.sent ≡ length (sent_in prefix.now.entries.now) }
    ensures up { IfOk result (λ on. on ≡ true → is_up_at prefix.now.entries.now step.now.site ≡ true) }
    ensures made { IfOk result (λ on. on ≡ true → record { owner = step.now.site; act = act.Step step.now.input.now step.now.records.now step.now.outs.now step.now.told.now } ≡ entry_of prefix.now.scenario.now prefix.now.entries.now step.now.site step.now.input.now) }
    ensures stands { IfOk result (λ on. on ≡ true → SeatStands prefix.now.scenario.now (prefix.now.entries.now ++ entry_of prefix.now.scenario.now prefix.now.entries.now step.now.site step.now.input.now ∷ []) step.now.site seat.new) }
{
    let Being::Up(up) = &mut seat.being else {
        return Ok(false);
    };
    if !take(up, prefix, step)? {
        return Ok(false);
    }
    seat.note(step.input)?;
    Ok(true)
}

// The packets are sent, one after the other.
fn send_all(alloc: Global, net: &mut Net, outs: &[Packet]) -> Result<(), NoMemory>
    ensures { IfOk result (λ u. net.new.traffic ≡ sends_all net.old.traffic outs.now) }
{
    let count = outs.len() as u64;
    if net.sent() > u64::MAX - count {
        return Err(NoMemory);
    }
    net.reserve(count)?;
    let _sent = net.send_all(List::of_copies(alloc, outs)?);
    Ok(())
}

// The packet that the input takes leaves the network, and these packets are sent.
fn pass(alloc: Global, net: &mut Net, input: &Input, outs: &[Packet]) -> Result<(), NoMemory>
    ensures { IfOk result (λ u. net.new.traffic ≡ sends_all (behind_input net.old.traffic input.now) outs.now) }
{
    leave(net, input);
    send_all(alloc, net, outs)
}

impl Auditor {
    /// Goes on over a step of a site of the scenario, where it is seen to be what its input makes the site do, and the input to
    /// be due.
    pub(crate) fn step(
        &mut self,
        prefix: &Prefix<'_>,
        step: &SeenStep<'_>,
    ) -> Result<bool, NoMemory>
        requires stands { Stands prefix.now.scenario.now prefix.now.entries.now self.old }
        requires some { 1 ≤ step.now.site }
        requires exists { step.now.site ≤ length prefix.now.scenario.now.weights }
        requires sent { step.now.sent ≡ length (sent_in prefix.now.entries.now) }
        ensures { IfOk result (λ on. on ≡ true →
            Stands prefix.now.scenario.now (prefix.now.entries.now ++ record { owner = step.now.site; act = act.Step step.now.input.now step.now.records.now step.now.outs.now step.now.told.now } ∷ []) self.new) }
    {
        let due = self.input_is_due(prefix, step.site, step.input)?;
        if !due {
            return Ok(false);
        }
        let seat = &mut self.seats[step.site as usize - 1];
        if !step_at(seat, prefix, step)? {
            return Ok(false);
        }
        pass(prefix.alloc, &mut self.net, step.input, step.outs)?;
        Ok(true)
    }
}
