// Several packets, by the worker of their site: one frame, and then their steps in one turn; or a fall over all of them.
// Why what a function owns is handed to `drop`: docs/DECISIONS.md, "What owns much is handed to `drop`".
ghost use Rattle.std.specs.Prelude.{◌≡◌, ◌≤◌, ◌↔◌, true, false, length, take, None, Some, Err};
ghost use Rattle.e3_disk.specs.Meters.{Keeps};
ghost use Rattle.e3_laws.specs.local.Drafts.{MayTakeAll};
ghost use Rattle.e3_laws.specs.local.Least.{AreFirstTo};
ghost use Rattle.e3_node.specs.Batched.{OnlyForMemory};
ghost use Rattle.e3_node.specs.Batches.{BatchEnded};
ghost use Rattle.e3_node.specs.Ending.{EndsWith, answer_by};
ghost use Rattle.e3_node.specs.NodeStands.{IsIn, IsUp, logged_in};
ghost use Rattle.e3_node.specs.NodeView.{disk_of};
ghost use Rattle.e3_node.specs.Turns.{HasTurned, MayTakeTurns, history_seen, scenario_seen};
ghost use Rattle.e3_node.specs.declared.fault.InputFault.TheVariants as input_fault;
ghost use Rattle.e3_node.specs.declared.state.State.TheVariants as state;
ghost use Rattle.e3_turn.specs.Passes.{seen_by};
ghost use Rattle.e3_types.specs.declared.entries.Why.{Why as Whys};
ghost use Rattle.e3_wire.specs.Marks.{note_of, nothing};
ghost use Rattle.e3_world.specs.Items.{is_up_at};

use crate::batching::{Batch, enter_steps, plan_all};
use crate::law::logs_are_sound;
use crate::site_log::write;
use crate::stepping::{fall_of, laid_down};
use crate::turning::must_rest;
use crate::{InputFault, State};
use core::mem::replace_with;
use e3_disk::Disk;
use e3_log::Log;
use e3_site::Site;
use e3_types::{Entry, Input, List, Record, Why};
use e3_wire::{Wire, WirePass};
use std::alloc::Global;
use std::sync::Wait;

/// How a batch ended: how many of its inputs were planned, or that one was refused, and whether the site fell over those before
/// that.
#[derive(Clone, Copy)]
pub(crate) struct BatchEnd {
    pub planned: Result<usize, InputFault>,
    pub fell: Option<Why>,
}

// What is answered of it.
fn answer_of(end: BatchEnd) -> Result<usize, InputFault>
    ensures { result ≡ answer_by end.planned end.fell }
{
    match end.planned {
        Err(fault) => Err(fault),
        Ok(steps) => match end.fell {
            None => Ok(steps),
            Some(why) => Err(InputFault::Fell { why }),
        },
    }
}

// The first of these inputs, one for each of the steps.
fn first_of(inputs: List<Input>, steps: &[Entry]) -> List<Input>
    ensures { result ≡ take (length steps.now) inputs }
{
    let mut first = inputs.into_vec();
    first.truncate(steps.len());
    List::from_vec(first)
}

// A site that is up takes several packets: their steps are planned and their places claimed in one turn, as many as one frame
// takes; the frame is written outside of it, and the steps are entered in another; or the site falls over all of them.
fn step_all<R: Wait, D: Disk>(
    rt: &R,
    alloc: Global,
    wire: &Wire,
    pass: &mut WirePass,
    number: u32,
    site: &mut Site,
    log: &mut Log<D>,
    rose: &List<Record>,
    logged: &mut u64,
    inputs: List<Input>,
) -> BatchEnd
    requires turns { MayTakeTurns wire.now number pass.old }
    requires up { IsUp D.meaning (scenario_seen pass.old) (history_seen pass.old) number site.old log.old rose.now logged.old }
    requires any { 1 ≤ length inputs }
    requires due { MayTakeAll (scenario_seen pass.old) (history_seen pass.old) number inputs }
    requires takes { AreFirstTo (scenario_seen pass.old) (history_seen pass.old) number inputs }
    requires places { length inputs ≤ (note_of number (seen_by pass.old)).places }
    ensures turned { HasTurned wire.now pass.old pass.new }
    ensures ended { EndsWith D.meaning (scenario_seen pass.old) (history_seen pass.old) (history_seen pass.new) number inputs
        (state.Up site.old log.old rose.now logged.old) (state.Up site.new log.new rose.now logged.new) result.planned result.fell }
    ensures refused { OnlyForMemory result.planned }
    ensures never { result.planned ≡ Err input_fault.Down → ⊥ }
    ensures none { note_of number (seen_by pass.new) ≡ nothing }
{
    logs_are_sound();
    let mut batch = Batch {
        steps: Vec::new(alloc),
        records: List::new(alloc),
        body: List::new(alloc),
        short: None,
    };
    let planned = plan_all(
        rt,
        wire,
        pass,
        number,
        site,
        rose,
        log,
        &mut batch,
        inputs.as_slice(),
    );
    must_rest(wire, pass);
    match write(
        log,
        logged,
        &batch.short,
        batch.records.as_slice(),
        batch.body.as_slice(),
    ) {
        Ok(()) => {
            let Batch {
                steps,
                records,
                body,
                short,
            } = batch;
            drop(records);
            drop(body);
            drop(short);
            enter_steps(rt, wire, pass, steps);
            BatchEnd {
                planned,
                fell: None,
            }
        }
        Err(why) => {
            let over = first_of(inputs, batch.steps.as_slice());
            let Batch {
                steps,
                records,
                body,
                short,
            } = batch;
            drop(steps);
            drop(body);
            drop(short);
            let fall = fall_of(number, over, records, why);
            wire.commit_entry(rt, pass, fall);
            BatchEnd {
                planned,
                fell: Some(why),
            }
        }
    }
}

// A site that fell is down, over the disk of its log.
fn settle_batch<D: Disk + Drop>(state: &mut State<D>, fell: Option<Why>)
    ensures fell { (why : Whys) → fell ≡ Some why → state.new ≡ State.Down (disk_of state.old) (logged_in state.old) }
    ensures kept { fell ≡ None → state.new ≡ state.old }
{
    match fell {
        None => {}
        Some(_) => replace_with(state, (), laid_down::<D>),
    }
}

/// Several packets go to the site where it is up, by its worker.
pub(crate) fn take_all<R: Wait, D: Disk + Drop>(
    rt: &R,
    alloc: Global,
    wire: &Wire,
    pass: &mut WirePass,
    number: u32,
    state: &mut State<D>,
    inputs: List<Input>,
) -> Result<usize, InputFault>
    requires turns { MayTakeTurns wire.now number pass.old }
    requires stands { IsIn D.meaning (scenario_seen pass.old) (history_seen pass.old) number state.old }
    requires any { 1 ≤ length inputs }
    requires due { is_up_at (history_seen pass.old) number ≡ true → MayTakeAll (scenario_seen pass.old) (history_seen pass.old) number inputs }
    requires takes { is_up_at (history_seen pass.old) number ≡ true → AreFirstTo (scenario_seen pass.old) (history_seen pass.old) number inputs }
    requires places { is_up_at (history_seen pass.old) number ≡ true → length inputs ≤ (note_of number (seen_by pass.old)).places }
    ensures turned { HasTurned wire.now pass.old pass.new }
    ensures stands { IsIn D.meaning (scenario_seen pass.old) (history_seen pass.new) number state.new }
    ensures ended { BatchEnded D.meaning.meters (scenario_seen pass.old) (history_seen pass.old) (history_seen pass.new) number inputs state.old state.new result }
    ensures down { (result ≡ Err input_fault.Down) ↔ (is_up_at (history_seen pass.old) number ≡ false) }
    ensures never { result ≡ Err input_fault.HistoryFull → ⊥ }
    ensures none { is_up_at (history_seen pass.old) number ≡ true → note_of number (seen_by pass.new) ≡ nothing }
    ensures kept { is_up_at (history_seen pass.old) number ≡ false → note_of number (seen_by pass.new) ≡ note_of number (seen_by pass.old) }
    ensures keeps { Keeps (D.meaning.meters (disk_of state.old)) (D.meaning.meters (disk_of state.new)) }
{
    match state {
        State::Down(_, _) => Err(InputFault::Down),
        State::Up(site, log, rose, logged) => {
            let end = step_all(
                rt, alloc, wire, pass, number, site, log, rose, logged, inputs,
            );
            settle_batch(state, end.fell);
            answer_of(end)
        }
    }
}
