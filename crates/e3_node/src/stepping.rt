// An input of a site that is up.
// Why what a function owns is handed to `drop`: docs/DECISIONS.md, "What owns much is handed to `drop`".
ghost use Rattle.std.specs.Prelude.{◌≡◌, ◌≢◌, ◌^◌, ◌<◌, ◌≤◌, ◌++◌, ◌∷◌, ◌↔◌, [], true, false, length, IfOk, OnOk, OnErr, Err, List as Items};
ghost use Rattle.e3_disk.specs.Meters.{Keeps};
ghost use Rattle.e3_node.specs.Bodies.{DiskTells};
ghost use Rattle.e3_node.specs.Ends.{FellOver, HasRoomBehind, IsOneFrame, OnLogs, is_fall};
ghost use Rattle.e3_node.specs.NodeStands.{IsFallen, IsIn, IsUp, logged_in};
ghost use Rattle.e3_node.specs.NodeView.{disk_of};
ghost use Rattle.e3_node.specs.Batched.{OnlyForMemory};
ghost use Rattle.e3_node.specs.Briefing.{HasBody, IsBriefOf};
ghost use Rattle.e3_node.specs.SharedStands.{IsClaimed, MayGoOn, SharedGoesOn, SharedStands};
ghost use Rattle.e3_node.specs.declared.fault.InputFault.{InputFault as InputFaults};
ghost use Rattle.e3_node.specs.declared.fault.InputFault.TheVariants as input_fault;
ghost use Rattle.e3_site.specs.SiteView.{HasRoomFor, IsPlanOf, Stands, count_on, entry_of_plan, planned_step, with_step};
ghost use Rattle.e3_node.specs.site_log.Ends.{HasRoom, HasRoomUnlessShort, IsReason, IsShortIf, Takes, calls_for, size_of};
ghost use Rattle.e3_play.specs.Entering.{IsFirst};
ghost use Rattle.e3_types.specs.declared.entries.Act.TheVariants as act;
ghost use Rattle.e3_types.specs.declared.entries.Input.{Input as Taken};
ghost use Rattle.e3_types.specs.declared.entries.Why.{Why as Whys};
ghost use Rattle.e3_types.specs.declared.entries.Why.TheVariants.{Fault};
ghost use Rattle.e3_types.specs.declared.records.Record.{Record as Records};
ghost use Rattle.e3_wire.specs.Marks.{entries_of, last_owner, most_of, scenario_of};
ghost use Rattle.e3_world.specs.Items.{is_up_at};
ghost use Rattle.e3_world.specs.Legal.{IsDue, entry_of, made_by};
ghost use Rattle.e3_world.specs.Moves.{log_of};
ghost use Rattle.e3_world.specs.declared.lives.Incarnation.{Incarnation};

use crate::briefing::shorten;
use crate::drafts::{Draft, prepare};
use crate::entering::{claim, enter, is_full};
use crate::law::logs_are_sound;
use crate::site_log::{Short, write};
use crate::{InputFault, State};
use core::mem::replace_with;
use e3_disk::Disk;
use e3_log::Log;
use e3_site::Site;
use e3_types::{Act, Entry, Input, List, Packet, Record, Why};
use e3_wire::Shared;
use e3_world::SiteStep;

/// For how many packets there has to be room.
pub(crate) fn room_for(outs: &[Packet]) -> u32
    requires { length outs.now < 2 ^ 32 }
    ensures { result ≡ length outs.now }
{
    outs.len() as u32
}

// The entry of a step that a site made of an input, its packets without numbers.
fn step_of(owner: u32, input: Input, made: SiteStep) -> Entry
    ensures { result ≡ entry_of_plan owner input made }
{
    let act = Act::Step {
        input,
        records: made.records,
        outs: made.outs,
        told: made.told,
    };
    Entry { owner, act }
}

/// The site does the step of this draft: the entry of that, its packets without numbers.
pub(crate) fn step_with(owner: u32, site: &mut Site, input: Input, draft: Draft) -> Entry
    requires of_site { IsPlanOf draft.plan site.old }
    requires room { HasRoomFor draft.plan site.old }
    ensures entry { result ≡ entry_of_plan owner input draft.plan.step }
    ensures done { site.new ≡ record site.old { inputs = count_on site.old.inputs; tables = site.new.tables } }
    ensures stand { (now : Incarnation) (taken : Taken) → Stands now site.old → draft.plan.step ≡ planned_step now site.old taken → Stands (with_step now draft.plan.step) site.new }
{
    let Draft { plan, body, inputs } = draft;
    drop(body);
    drop(inputs);
    step_of(owner, input, site.apply(plan))
}

/// The entry of a fall.
pub(crate) fn fall_of(owner: u32, inputs: List<Input>, records: List<Record>, why: Why) -> Entry
    ensures { result ≡ record { owner = owner; act = act.Fall inputs records why } }
{
    let act = Act::Fall {
        inputs,
        records,
        why,
    };
    Entry { owner, act }
}

/// The entry of a fall over the step of this draft.
pub(crate) fn fall_over(owner: u32, draft: Draft, why: Why) -> Entry
    ensures { result ≡ record { owner = owner; act = act.Fall draft.inputs draft.plan.step.records why } }
{
    let Draft { plan, body, inputs } = draft;
    drop(body);
    let SiteStep {
        input,
        records,
        outs,
        told,
    } = plan.into_step();
    drop(input);
    drop(outs);
    drop(told);
    fall_of(owner, inputs, records, why)
}

// Claims a place for the step of this draft, and answers what the log is turned to for its frame, if it is.
fn claim_place<D: Disk>(
    number: u32,
    site: &Site,
    log: &Log<D>,
    shared: &mut Shared,
    draft: &Draft,
) -> Result<Option<Short>, InputFault>
    requires shared { SharedStands shared.old }
    requires exists { number ≤ last_owner shared.old }
    requires few { length draft.now.plan.step.outs < 2 ^ 32 }
    requires left { length (entries_of shared.old) < most_of shared.old }
    ensures short { (log : Items Records) → IsBriefOf site.now log → IfOk result (IsShortIf site.now.site log) }
    ensures due { (l : Items Records) → IsBriefOf site.now l → log.now.failed ≡ false → draft.now.plan.step.records ≢ [] →
        IfOk result (λ s. HasRoomUnlessShort D.meaning.meters log.now l s (length draft.now.body)) }
    ensures body { IfOk result HasBody }
    ensures claimed { OnOk result (IsClaimed number (length draft.now.plan.step.outs) shared.old shared.new) }
    ensures kept { OnErr result (shared.new ≡ shared.old) }
    ensures refused { OnlyForMemory result }
{
    let short = shorten(
        shared.alloc(),
        site,
        log,
        draft.plan.records(),
        draft.body.len(),
    )?;
    claim(shared, number, room_for(draft.plan.outs()))?;
    Ok(short)
}

// A site that is up takes an input: its step is planned, its frame is written, and it is entered; or it falls. The records that
// it rose with are passed on for the proof alone.
fn step<D: Disk>(
    number: u32,
    site: &mut Site,
    log: &mut Log<D>,
    rose: &List<Record>,
    logged: &mut u64,
    shared: &mut Shared,
    input: Input,
) -> Result<(), InputFault>
    requires shared { MayGoOn number shared.old }
    requires up { IsUp D.meaning (scenario_of shared.old) (entries_of shared.old) number site.old log.old rose.now logged.old }
    requires due { IsDue (scenario_of shared.old) (entries_of shared.old) number input }
    requires first { IsFirst (scenario_of shared.old) (entries_of shared.old) input }
    ensures shared { SharedGoesOn shared.old shared.new }
    ensures stepped { OnOk result (entries_of shared.new ≡ entries_of shared.old ++ entry_of (scenario_of shared.old) (entries_of shared.old) number input ∷ []) }
    ensures up { OnOk result (IsUp D.meaning (scenario_of shared.old) (entries_of shared.new) number site.new log.new rose.now logged.new) }
    ensures never { result ≡ Err input_fault.Down → ⊥ }
    ensures kept { (fault : InputFaults) → result ≡ Err fault → is_fall fault ≡ false →
        (entries_of shared.new ≡ entries_of shared.old) × (log.new ≡ log.old)
        × IsUp D.meaning (scenario_of shared.old) (entries_of shared.old) number site.new log.new rose.now logged.new }
    ensures fell { (why : Whys) → result ≡ Err (input_fault.Fell why) →
        FellOver (scenario_of shared.old) (entries_of shared.old) number input why (entries_of shared.new)
        × DiskTells (scenario_of shared.old) (entries_of shared.new) number (D.meaning.meters log.new.disk).capacity logged.new (D.meaning.image log.new.disk) }
    ensures why { (why : Whys) → result ≡ Err (input_fault.Fell why) →
        IsReason why (log_of (scenario_of shared.old) (entries_of shared.old) number)
        (made_by (scenario_of shared.old) (entries_of shared.old) number input).records (D.meaning.meters log.old.disk) (D.meaning.meters log.new.disk) }
    ensures room { (why : Whys) → result ≡ Err (input_fault.Fell why) →
        HasRoom D.meaning.meters log.old (size_of (made_by (scenario_of shared.old) (entries_of shared.old) number input).records) → why ≡ Fault }
    ensures full { (result ≡ Err input_fault.HistoryFull) ↔ (most_of shared.old ≤ length (entries_of shared.old)) }
    ensures keeps { Keeps (D.meaning.meters log.old.disk) (D.meaning.meters log.new.disk) }
    ensures takes { OnOk result (Takes (calls_for (made_by (scenario_of shared.old) (entries_of shared.old) number input).records)
        (D.meaning.meters log.old.disk) (D.meaning.meters log.new.disk)) }
    ensures frame { OnOk result (IsOneFrame D.meaning.meters (log_of (scenario_of shared.old) (entries_of shared.old) number)
        (made_by (scenario_of shared.old) (entries_of shared.old) number input).records log.old log.new) }
{
    logs_are_sound();
    if is_full(shared) {
        drop(input);
        return Err(InputFault::HistoryFull);
    }
    match prepare(site, rose, &input, shared) {
        Ok(draft) => match claim_place(number, site, log, shared, &draft) {
            Ok(short) => {
                let (records, body) = (draft.plan.records(), draft.body.as_slice());
                match write(log, logged, &short, records, body) {
                    Ok(()) => {
                        let step = step_with(number, site, input, draft);
                        enter(shared, step);
                        Ok(())
                    }
                    Err(why) => {
                        drop(input);
                        let fall = fall_over(number, draft, why);
                        enter(shared, fall);
                        Err(InputFault::Fell { why })
                    }
                }
            }
            Err(fault) => {
                drop(draft);
                drop(input);
                Err(fault)
            }
        },
        Err(_) => {
            drop(input);
            Err(InputFault::NoMemory)
        }
    }
}

/// The input goes to the site where it is up.
pub(crate) fn take_input<D: Disk + Drop>(
    number: u32,
    state: &mut State<D>,
    shared: &mut Shared,
    input: Input,
) -> Result<(), InputFault>
    requires shared { MayGoOn number shared.old }
    requires stands { IsIn D.meaning (scenario_of shared.old) (entries_of shared.old) number state.old }
    requires due { is_up_at (entries_of shared.old) number ≡ true → IsDue (scenario_of shared.old) (entries_of shared.old) number input }
    requires first { is_up_at (entries_of shared.old) number ≡ true → IsFirst (scenario_of shared.old) (entries_of shared.old) input }
    ensures shared { SharedGoesOn shared.old shared.new }
    ensures stepped { OnOk result (entries_of shared.new ≡ entries_of shared.old ++ entry_of (scenario_of shared.old) (entries_of shared.old) number input ∷ []) }
    ensures up { OnOk result (IsIn D.meaning (scenario_of shared.old) (entries_of shared.new) number state.new) }
    ensures down { (result ≡ Err input_fault.Down) ↔ (is_up_at (entries_of shared.old) number ≡ false) }
    ensures kept { (fault : InputFaults) → result ≡ Err fault → is_fall fault ≡ false →
        (entries_of shared.new ≡ entries_of shared.old) × (disk_of state.new ≡ disk_of state.old)
        × IsIn D.meaning (scenario_of shared.old) (entries_of shared.old) number state.new }
    ensures fell { (why : Whys) → result ≡ Err (input_fault.Fell why) →
        FellOver (scenario_of shared.old) (entries_of shared.old) number input why (entries_of shared.new)
        × IsFallen D.meaning (scenario_of shared.old) (entries_of shared.new) number state.new }
    ensures why { (why : Whys) → result ≡ Err (input_fault.Fell why) →
        IsReason why (log_of (scenario_of shared.old) (entries_of shared.old) number)
        (made_by (scenario_of shared.old) (entries_of shared.old) number input).records (D.meaning.meters (disk_of state.old)) (D.meaning.meters (disk_of state.new)) }
    ensures room { (why : Whys) → result ≡ Err (input_fault.Fell why) →
        HasRoomBehind D.meaning.meters state.old (made_by (scenario_of shared.old) (entries_of shared.old) number input).records → why ≡ Fault }
    ensures full { is_up_at (entries_of shared.old) number ≡ true →
        (result ≡ Err input_fault.HistoryFull) ↔ (most_of shared.old ≤ length (entries_of shared.old)) }
    ensures keeps { Keeps (D.meaning.meters (disk_of state.old)) (D.meaning.meters (disk_of state.new)) }
    ensures takes { OnOk result (Takes (calls_for (made_by (scenario_of shared.old) (entries_of shared.old) number input).records)
        (D.meaning.meters (disk_of state.old)) (D.meaning.meters (disk_of state.new))) }
    ensures frame { OnOk result (OnLogs (IsOneFrame D.meaning.meters (log_of (scenario_of shared.old) (entries_of shared.old) number)
        (made_by (scenario_of shared.old) (entries_of shared.old) number input).records) state.old state.new) }
{
    match state {
        State::Down(_, _) => Err(InputFault::Down),
        State::Up(site, log, rose, logged) => step(number, site, log, rose, logged, shared, input),
    }
}

pub(crate) fn laid_down<D: Disk + Drop>(state: State<D>, _unit: ()) -> (State<D>, ())
    ensures { result.0 ≡ State.Down (disk_of state) (logged_in state) }
{
    match state {
        State::Down(disk, logged) => (State::Down(disk, logged), ()),
        State::Up(_site, log, _rose, logged) => (State::Down(log.into_disk(), logged), ()),
    }
}

/// A site that fell is down, over the disk of its log.
pub(crate) fn settle<D: Disk + Drop>(state: &mut State<D>, fault: InputFault)
    ensures fell { is_fall fault ≡ true → state.new ≡ State.Down (disk_of state.old) (logged_in state.old) }
    ensures kept { is_fall fault ≡ false → state.new ≡ state.old }
{
    match fault {
        InputFault::Fell { .. } => replace_with(state, (), laid_down::<D>),
        _ => {}
    }
}
