// An input of a site that is up, by its worker.
// Why what a function owns is handed to `drop`: docs/DECISIONS.md, "What owns much is handed to `drop`".
ghost use Rattle.std.specs.Prelude.{◌≡◌, ◌≢◌, ◌≤◌, ◌<◌, ◌^◌, ◌↔◌, [], true, false, length, IfOk, OnOk, OnErr, Err, List as Items};
ghost use Rattle.e3_disk.specs.Meters.{Keeps};
ghost use Rattle.e3_laws.specs.local.Drafts.{MayTake};
ghost use Rattle.e3_node.specs.Briefing.{HasBody, IsBriefOf};
ghost use Rattle.e3_node.specs.Ends.{HasRoomBehind, IsOneFrame, OnLogs};
ghost use Rattle.e3_node.specs.NodeStands.{IsIn, IsUp};
ghost use Rattle.e3_node.specs.NodeView.{disk_of};
ghost use Rattle.e3_node.specs.Places.{HasGivenNoneBack};
ghost use Rattle.e3_node.specs.Turns.{EndsSo, HasClaimed, HasKeptPromises, IsRefusal, MayTakeTurns, Meanwhile, history_seen, scenario_seen};
ghost use Rattle.e3_node.specs.declared.fault.InputFault.{InputFault as InputFaults};
ghost use Rattle.e3_node.specs.declared.fault.InputFault.TheVariants as input_fault;
ghost use Rattle.e3_node.specs.declared.state.State.TheVariants as state;
ghost use Rattle.e3_node.specs.site_log.Ends.{HasRoom, HasRoomUnlessShort, IsReason, IsShortIf, Takes, calls_for, size_of};
ghost use Rattle.e3_turn.specs.Passes.{IsIdle, SameOwners, seen_by};
ghost use Rattle.e3_types.specs.declared.entries.Why.{Why as Whys};
ghost use Rattle.e3_types.specs.declared.entries.Why.TheVariants.{Fault};
ghost use Rattle.e3_types.specs.declared.records.Record.{Record as Records};
ghost use Rattle.e3_wire.specs.Marks.{most_of, used_of};
ghost use Rattle.e3_wire.specs.Wires.{IsPlayed, TakesLeast};
ghost use Rattle.e3_world.specs.Items.{is_up_at};
ghost use Rattle.e3_world.specs.Legal.{made_by};
ghost use Rattle.e3_world.specs.Moves.{log_of};

use crate::briefing::shorten;
use crate::drafts::{Draft, prepare_by_turns};
use crate::law::logs_are_sound;
use crate::site_log::{Short, write};
use crate::stepping::{fall_over, room_for, step_with};
use crate::{InputFault, State};
use e3_disk::Disk;
use e3_log::Log;
use e3_site::Site;
use e3_types::{Input, List, Record};
use e3_wire::{Wire, WirePass};
use std::alloc::Global;
use std::sync::Wait;

/// Asks that the pass rests: what comes next is done outside of a turn, so that others go on meanwhile.
pub(crate) fn must_rest(wire: &Wire, pass: &WirePass)
    requires { IsIdle wire.now pass.now }
{
    let _ = wire;
    let _ = pass;
}

// Claims a place for the step of this draft, behind what others put, and answers what the log is turned to for its frame, if
// it is.
fn claim_place_by_turns<R: Wait, D: Disk>(
    rt: &R,
    alloc: Global,
    wire: &Wire,
    pass: &mut WirePass,
    number: u32,
    site: &Site,
    log: &Log<D>,
    draft: &Draft,
) -> Result<Option<Short>, InputFault>
    requires turns { MayTakeTurns wire.now number pass.old }
    requires few { length draft.now.plan.step.outs < 2 ^ 32 }
    ensures short { (log : Items Records) → IsBriefOf site.now log → IfOk result (IsShortIf site.now.site log) }
    ensures due { (l : Items Records) → IsBriefOf site.now l → log.now.failed ≡ false → draft.now.plan.step.records ≢ [] →
        IfOk result (λ s. HasRoomUnlessShort D.meaning.meters log.now l s (length draft.now.body)) }
    ensures body { IfOk result HasBody }
    ensures idle { OnOk result (IsIdle wire.now pass.new) }
    ensures same { OnOk result (SameOwners pass.old pass.new) }
    ensures played { OnOk result (IsPlayed (seen_by pass.new)) }
    ensures claimed { OnOk result (HasClaimed number (length draft.now.plan.step.outs) pass.old pass.new) }
    ensures turned { OnErr result (HasKeptPromises wire.now number pass.old pass.new) }
    ensures none_back { OnErr result (HasGivenNoneBack number (seen_by pass.old) (seen_by pass.new)) }
    ensures meanwhile { OnErr result (Meanwhile number (history_seen pass.old) (history_seen pass.new)) }
    ensures refused { (fault : InputFaults) → result ≡ Err fault → IsRefusal fault }
    ensures full { result ≡ Err input_fault.HistoryFull → most_of (seen_by pass.new) ≤ used_of (seen_by pass.new) }
{
    let short = shorten(alloc, site, log, draft.plan.records(), draft.body.len())?;
    wire.claim(rt, pass, number, room_for(draft.plan.outs()))?;
    Ok(short)
}

// A site that is up takes an input: its step is planned, a place is claimed for it, its frame is written outside of the
// turn, and it is entered; or it falls.
fn step_by_turns<R: Wait, D: Disk>(
    rt: &R,
    alloc: Global,
    wire: &Wire,
    pass: &mut WirePass,
    number: u32,
    site: &mut Site,
    log: &mut Log<D>,
    rose: &List<Record>,
    logged: &mut u64,
    input: Input,
) -> Result<(), InputFault>
    requires turns { MayTakeTurns wire.now number pass.old }
    requires up { IsUp D.meaning (scenario_seen pass.old) (history_seen pass.old) number site.old log.old rose.now logged.old }
    requires due { MayTake (scenario_seen pass.old) (history_seen pass.old) number input }
    requires takes { TakesLeast (scenario_seen pass.old) (history_seen pass.old) number input }
    ensures turned { HasKeptPromises wire.now number pass.old pass.new }
    ensures none_back { HasGivenNoneBack number (seen_by pass.old) (seen_by pass.new) }
    ensures ended { EndsSo D.meaning (scenario_seen pass.old) (history_seen pass.old) (history_seen pass.new) number input
        (state.Up site.old log.old rose.now logged.old) (state.Up site.new log.new rose.now logged.new) result }
    ensures never { result ≡ Err input_fault.Down → ⊥ }
    ensures why { (why : Whys) → result ≡ Err (input_fault.Fell why) →
        IsReason why (log_of (scenario_seen pass.old) (history_seen pass.old) number)
        (made_by (scenario_seen pass.old) (history_seen pass.old) number input).records (D.meaning.meters log.old.disk) (D.meaning.meters log.new.disk) }
    ensures room { (why : Whys) → result ≡ Err (input_fault.Fell why) →
        HasRoom D.meaning.meters log.old (size_of (made_by (scenario_seen pass.old) (history_seen pass.old) number input).records) → why ≡ Fault }
    ensures full { result ≡ Err input_fault.HistoryFull → most_of (seen_by pass.new) ≤ used_of (seen_by pass.new) }
    ensures keeps { Keeps (D.meaning.meters log.old.disk) (D.meaning.meters log.new.disk) }
    ensures takes { OnOk result (Takes (calls_for (made_by (scenario_seen pass.old) (history_seen pass.old) number input).records)
        (D.meaning.meters log.old.disk) (D.meaning.meters log.new.disk)) }
    ensures frame { OnOk result (IsOneFrame D.meaning.meters (log_of (scenario_seen pass.old) (history_seen pass.old) number)
        (made_by (scenario_seen pass.old) (history_seen pass.old) number input).records log.old log.new) }
{
    logs_are_sound();
    match prepare_by_turns(alloc, site, rose, &input, pass) {
        Ok(draft) => match claim_place_by_turns(rt, alloc, wire, pass, number, site, log, &draft) {
            Ok(short) => {
                must_rest(wire, pass);
                let (records, body) = (draft.plan.records(), draft.body.as_slice());
                match write(log, logged, &short, records, body) {
                    Ok(()) => {
                        let step = step_with(number, site, input, draft);
                        wire.commit_entry(rt, pass, step);
                        Ok(())
                    }
                    Err(why) => {
                        drop(input);
                        let fall = fall_over(number, draft, why);
                        wire.commit_entry(rt, pass, fall);
                        Err(InputFault::Fell { why })
                    }
                }
            }
            Err(fault) => {
                drop(draft);
                drop(input);
                Err(fault)
            }
        },
        Err(_) => {
            drop(input);
            Err(InputFault::NoMemory)
        }
    }
}

/// The input goes to the site where it is up, by its worker.
pub(crate) fn take_by_turns<R: Wait, D: Disk + Drop>(
    rt: &R,
    alloc: Global,
    wire: &Wire,
    pass: &mut WirePass,
    number: u32,
    state: &mut State<D>,
    input: Input,
) -> Result<(), InputFault>
    requires turns { MayTakeTurns wire.now number pass.old }
    requires stands { IsIn D.meaning (scenario_seen pass.old) (history_seen pass.old) number state.old }
    requires due { is_up_at (history_seen pass.old) number ≡ true → MayTake (scenario_seen pass.old) (history_seen pass.old) number input }
    requires takes { is_up_at (history_seen pass.old) number ≡ true → TakesLeast (scenario_seen pass.old) (history_seen pass.old) number input }
    ensures turned { HasKeptPromises wire.now number pass.old pass.new }
    ensures none_back { HasGivenNoneBack number (seen_by pass.old) (seen_by pass.new) }
    ensures ended { EndsSo D.meaning (scenario_seen pass.old) (history_seen pass.old) (history_seen pass.new) number input
        state.old state.new result }
    ensures down { (result ≡ Err input_fault.Down) ↔ (is_up_at (history_seen pass.old) number ≡ false) }
    ensures why { (why : Whys) → result ≡ Err (input_fault.Fell why) →
        IsReason why (log_of (scenario_seen pass.old) (history_seen pass.old) number)
        (made_by (scenario_seen pass.old) (history_seen pass.old) number input).records (D.meaning.meters (disk_of state.old)) (D.meaning.meters (disk_of state.new)) }
    ensures room { (why : Whys) → result ≡ Err (input_fault.Fell why) →
        HasRoomBehind D.meaning.meters state.old (made_by (scenario_seen pass.old) (history_seen pass.old) number input).records → why ≡ Fault }
    ensures full { result ≡ Err input_fault.HistoryFull → most_of (seen_by pass.new) ≤ used_of (seen_by pass.new) }
    ensures keeps { Keeps (D.meaning.meters (disk_of state.old)) (D.meaning.meters (disk_of state.new)) }
    ensures takes { OnOk result (Takes (calls_for (made_by (scenario_seen pass.old) (history_seen pass.old) number input).records)
        (D.meaning.meters (disk_of state.old)) (D.meaning.meters (disk_of state.new))) }
    ensures frame { OnOk result (OnLogs (IsOneFrame D.meaning.meters (log_of (scenario_seen pass.old) (history_seen pass.old) number)
        (made_by (scenario_seen pass.old) (history_seen pass.old) number input).records) state.old state.new) }
{
    match state {
        State::Down(_, _) => Err(InputFault::Down),
        State::Up(site, log, rose, logged) => step_by_turns(
            rt, alloc, wire, pass, number, site, log, rose, logged, input,
        ),
    }
}
