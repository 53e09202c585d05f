// What the driver holds between the rounds of workers, and what the sites do of a run, each by the node of the worker at its
// place.
ghost use Rattle.std.specs.Prelude.{◌≡◌, ◌≢◌, ◌≤◌, ◌<◌, ◌++◌, ◌∷◌, [], suc, true, fold, length, IfOk, OnOk, OnErr, Err};
ghost use Rattle.e3_fleet.specs.Fleets.{FleetStands, HeldWentOn, cut_answer, input_answer, nodes_of, rise_answer};
ghost use Rattle.e3_node.specs.declared.fault.CutFault.TheVariants as cut_fault;
ghost use Rattle.e3_node.specs.declared.fault.InputFault.TheVariants as input_fault;
ghost use Rattle.e3_node.specs.declared.fault.RiseFault.TheVariants as rise_fault;
ghost use Rattle.e3_play.specs.Entering.{AfterInput, AfterRise, IsFirst};
ghost use Rattle.e3_play.specs.declared.sites.RunFault.TheVariants.{HistoryFull};
ghost use Rattle.e3_types.specs.declared.entries.Act.TheVariants as act;
ghost use Rattle.e3_types.specs.declared.scenarios.Item.TheVariants as item;
ghost use Rattle.e3_wire.specs.Marks.{entries_of, most_of, scenario_of};
ghost use Rattle.e3_world.specs.Items.{add_txn, is_up_at, open_at};
ghost use Rattle.e3_world.specs.Legal.{IsCut, IsDue, IsLine, IsRising};
ghost use Rattle.e3_world.specs.Packets.{step_items};

use crate::crew::Worker;
use crate::driving::enter_line;
use e3_disk::{Disk, Drill};
use e3_node::{CutFault, InputFault, RiseFault, other_entries_keep_nodes};
use e3_play::RunFault;
use e3_types::{Input, Leave, List, NoMemory, Txn};
use e3_wire::Shared;
use std::alloc::Global;

/// What the driver holds between the rounds of workers: what the sites share, and the workers of all sites, that of site 1
/// first.
#[derive(Drop)]
pub struct Held<D: Disk + Drill + Drop> {
    pub shared: Shared,
    pub workers: Vec<Worker<D>>,
}

// What a rise is to the run. Only a site that is down rises, and only one that is up takes an input or is cut: so here, as below,
// the arm for the other fault is proved never to be taken.
fn rise_answer(answer: Result<u32, RiseFault>) -> Result<(), RunFault>
    requires { answer ≢ Err rise_fault.Up }
    ensures { result ≡ rise_answer answer }
{
    match answer {
        Err(RiseFault::HistoryFull) => Err(RunFault::HistoryFull),
        Err(RiseFault::NoMemory) => Err(RunFault::NoMemory),
        Err(RiseFault::Up) => unreachable!(),
        Ok(_) | Err(RiseFault::Missed | RiseFault::Failed { .. }) => Ok(()),
    }
}

// What an input is to the run.
fn input_answer(answer: Result<(), InputFault>) -> Result<(), RunFault>
    requires { answer ≢ Err input_fault.Down }
    ensures { result ≡ input_answer answer }
{
    match answer {
        Err(InputFault::HistoryFull) => Err(RunFault::HistoryFull),
        Err(InputFault::NoMemory) => Err(RunFault::NoMemory),
        Err(InputFault::Down) => unreachable!(),
        Ok(()) | Err(InputFault::Fell { .. }) => Ok(()),
    }
}

// What a cut is to the run.
fn cut_answer(answer: Result<(), CutFault>) -> Result<(), RunFault>
    requires { answer ≢ Err cut_fault.Down }
    ensures { result ≡ cut_answer answer }
{
    match answer {
        Err(CutFault::HistoryFull) => Err(RunFault::HistoryFull),
        Err(CutFault::NoMemory) => Err(RunFault::NoMemory),
        Err(CutFault::Down) => unreachable!(),
        Ok(()) => Ok(()),
    }
}

impl<D: Disk + Drill + Drop> Held<D> {
    // The place of the worker of a site of the scenario.
    pub(crate) fn place(&self, site: u32) -> usize
        requires standing { FleetStands D.meaning self.now.shared (nodes_of self.now.workers.items) }
        requires least { 1 ≤ site }
        requires exists { site ≤ length (scenario_of self.now.shared).weights }
        ensures is { suc result ≡ site }
        ensures within { result < length self.now.workers.items }
    {
        site as usize - 1
    }

    // Whether the node at this place is up.
    pub(crate) fn is_up_at(&self, at: usize) -> bool
        requires standing { FleetStands D.meaning self.now.shared (nodes_of self.now.workers.items) }
        requires within { at < length self.now.workers.items }
        ensures { result ≡ is_up_at (entries_of self.now.shared) (suc at) }
    {
        self.workers[at].node.is_up()
    }

    // The undecided transactions that the node at this place knows, which is up.
    pub(crate) fn open_txns_at(&self, alloc: Global, at: usize) -> Result<List<Txn>, NoMemory>
        requires standing { FleetStands D.meaning self.now.shared (nodes_of self.now.workers.items) }
        requires within { at < length self.now.workers.items }
        requires up { is_up_at (entries_of self.now.shared) (suc at) ≡ true }
        ensures { IfOk result (λ txns. txns ≡ fold add_txn [] (open_at (scenario_of self.now.shared) (entries_of self.now.shared) (suc at))) }
    {
        self.workers[at].node.open_txns(alloc)
    }

    // A rise of the node at this place.
    pub(crate) fn rise_at(&mut self, at: usize) -> Result<(), RunFault>
        requires standing { FleetStands D.meaning self.old.shared (nodes_of self.old.workers.items) }
        requires within { at < length self.old.workers.items }
        requires turn { IsRising (scenario_of self.old.shared) (entries_of self.old.shared) (suc at) }
        ensures went { HeldWentOn D.meaning self.old self.new }
        ensures rose { OnOk result (AfterRise (scenario_of self.old.shared) (entries_of self.old.shared) (suc at) (entries_of self.new.shared)) }
        ensures kept { OnErr result (entries_of self.new.shared ≡ entries_of self.old.shared) }
        ensures full { result ≡ Err HistoryFull → most_of self.old.shared ≤ length (entries_of self.old.shared) }
    {
        other_entries_keep_nodes::<D>();
        let answer = self.workers[at].node.rise(&mut self.shared);
        rise_answer(answer)
    }

    // An input for the node at this place, which is up.
    pub(crate) fn input_at(&mut self, at: usize, input: Input) -> Result<(), RunFault>
        requires standing { FleetStands D.meaning self.old.shared (nodes_of self.old.workers.items) }
        requires within { at < length self.old.workers.items }
        requires up { is_up_at (entries_of self.old.shared) (suc at) ≡ true }
        requires due { IsDue (scenario_of self.old.shared) (entries_of self.old.shared) (suc at) input }
        requires first { IsFirst (scenario_of self.old.shared) (entries_of self.old.shared) input }
        ensures went { HeldWentOn D.meaning self.old self.new }
        ensures entered { OnOk result (AfterInput (scenario_of self.old.shared) (entries_of self.old.shared) (suc at) input (entries_of self.new.shared)) }
        ensures kept { OnErr result (entries_of self.new.shared ≡ entries_of self.old.shared) }
        ensures full { result ≡ Err HistoryFull → most_of self.old.shared ≤ length (entries_of self.old.shared) }
    {
        other_entries_keep_nodes::<D>();
        let answer = self.workers[at].node.input(&mut self.shared, input);
        input_answer(answer)
    }

    // The power of the node at this place is cut, which is up.
    pub(crate) fn cut_at(&mut self, at: usize) -> Result<(), RunFault>
        requires standing { FleetStands D.meaning self.old.shared (nodes_of self.old.workers.items) }
        requires within { at < length self.old.workers.items }
        requires due { IsCut (scenario_of self.old.shared) (entries_of self.old.shared) (suc at) }
        ensures went { HeldWentOn D.meaning self.old self.new }
        ensures entered { OnOk result (entries_of self.new.shared ≡ entries_of self.old.shared ++ record { owner = suc at; act = act.Cut } ∷ []) }
        ensures kept { OnErr result (entries_of self.new.shared ≡ entries_of self.old.shared) }
        ensures full { result ≡ Err HistoryFull → most_of self.old.shared ≤ length (entries_of self.old.shared) }
    {
        other_entries_keep_nodes::<D>();
        let answer = self.workers[at].node.cut(&mut self.shared);
        cut_answer(answer)
    }

    // The line of a stop of the node at this place is entered, and then its disk is armed. A line that is not entered arms
    // nothing.
    pub(crate) fn stop_at(
        &mut self,
        at: usize,
        number: u32,
        calls: u32,
        leave: Leave,
    ) -> Result<(), RunFault>
        requires standing { FleetStands D.meaning self.old.shared (nodes_of self.old.workers.items) }
        requires within { at < length self.old.workers.items }
        requires due { IsLine (scenario_of self.old.shared) (entries_of self.old.shared) number }
        requires step { step_items (scenario_of self.old.shared) number ≡ item.Stop (suc at) calls leave ∷ [] }
        requires some { 1 ≤ calls }
        ensures went { HeldWentOn D.meaning self.old self.new }
        ensures entered { OnOk result (entries_of self.new.shared ≡ entries_of self.old.shared ++ record { owner = 0; act = act.Line number } ∷ []) }
        ensures kept { OnErr result (entries_of self.new.shared ≡ entries_of self.old.shared) }
        ensures full { result ≡ Err HistoryFull → most_of self.old.shared ≤ length (entries_of self.old.shared) }
    {
        other_entries_keep_nodes::<D>();
        enter_line(&mut self.shared, number)?;
        self.workers[at].node.stop(calls, leave);
        Ok(())
    }
}
