// Several packets of a site that is up, by its worker: their steps have one frame.
// Why what a function owns is handed to `drop`: docs/DECISIONS.md, "What owns much is handed to `drop`".
ghost use Rattle.std.specs.Prelude.{◌≡◌, ◌≤◌, ◌<◌, ◌+◌, ◌^◌, ◌++◌, ◌∷◌, [], None, true, false, ℕ, length, take, vec_capacity, IfOk, IfSome, OnOk, OnErr, List as Items};
ghost use Rattle.e3_site.specs.StandsAlike.{IsLogInOrder, StandsAlike};
ghost use Rattle.e3_node.specs.Batched.{AreAdded, BatchAt, HasNoMoreRoom, HasPlanned, IsBatchAt, IsLonger, OnlyForMemory, TakesNoMore, first_of};
ghost use Rattle.e3_node.specs.Batches.{stepped};
ghost use Rattle.e3_node.specs.Briefing.{BriefsAreTold};
ghost use Rattle.e3_node.specs.Several.{AreOwned, MayEnterAll, marks_in};
ghost use Rattle.e3_node.specs.Turns.{history_seen, scenario_seen};
ghost use Rattle.e3_turn.specs.Passes.{GrewByOthers, IsIdle, Owns, SameOwners, seen_by};
ghost use Rattle.e3_wire.specs.Marks.{belongs, entries_of, last_owner, most_of, note_of, scenario_of, used_of};
ghost use Rattle.e3_wire.specs.Wires.{IsPlayed};
ghost use Rattle.e3_wire.specs.declared.marks.Mark.{Mark};
ghost use Rattle.e3_wire.specs.declared.marks.Mark.TheVariants as mark;
ghost use Rattle.e3_world.specs.Moves.{log_of};

use crate::InputFault;
use crate::briefing::{Room, shorten_batch, spare_for};
use crate::drafts::{Draft, planned};
use crate::site_log::Short;
use crate::stepping::{room_for, step_with};
use e3_disk::Disk;
use e3_log::Log;
use e3_site::Site;
use e3_types::{Entry, Input, List, NoMemory, Record};
use e3_wire::{Shared, Wire, WirePass};
use std::alloc::Global;
use std::sync::Wait;

/// The steps of a batch, made and not yet entered: their entries without numbers for their packets, all that they record, the
/// spelling of that, and what the log is turned to for it, if it is.
#[derive(Drop)]
pub(crate) struct Batch {
    pub steps: Vec<Entry>,
    pub records: List<Record>,
    pub body: List<u8>,
    pub short: Option<Short>,
}

/// What a batch has with one step more: all that it records, the spelling of that, and what the log is turned to for that step,
/// if it is.
#[derive(Drop)]
pub(crate) struct Lengthened {
    pub records: List<Record>,
    pub body: List<u8>,
    pub short: Option<Short>,
}

// No batch has more than eight inputs, so what is recorded is copied from one list into a longer one.
fn both_records(
    alloc: Global,
    first: &[Record],
    second: &[Record],
) -> Result<List<Record>, NoMemory>
    ensures { IfOk result (λ both. both ≡ first.now ++ second.now) }
{
    let mut both = List::of_copies(alloc, first)?;
    both.add_copies(alloc, second)?;
    Ok(both)
}

fn both_bodies(alloc: Global, first: &[u8], second: &[u8]) -> Result<List<u8>, NoMemory>
    ensures { IfOk result (λ both. both ≡ first.now ++ second.now) }
{
    let mut both = List::new(alloc);
    both.extend(first)?;
    both.extend(second)?;
    Ok(both)
}

// Room for one step more.
fn reserve(steps: &mut Vec<Entry>) -> Result<(), NoMemory>
    ensures items { steps.new.items ≡ steps.old.items }
    ensures room { OnOk result (length steps.old.items < vec_capacity steps.new) }
{
    match steps.try_reserve(1) {
        Ok(()) => Ok(()),
        Err(_) => Err(NoMemory),
    }
}

// What a batch records with one step more is put in its place.
fn lengthen(batch: &mut Batch, longer: Lengthened)
    ensures { batch.new ≡ record batch.old { records = longer.records; body = longer.body; short = first_of longer.short batch.old.short } }
{
    batch.records = longer.records;
    batch.body = longer.body;
    if longer.short.is_some() {
        batch.short = longer.short;
    }
}

// How many steps a batch has.
fn steps_in(batch: &Batch) -> usize
    ensures { result ≡ length batch.now.steps.items }
{
    batch.steps.as_slice().len()
}

// What a batch has with the step of this draft, for which a place is claimed; none where the frame has no room for it.
fn one_more<D: Disk>(
    shared: &mut Shared,
    number: u32,
    site: &Site,
    log: &Log<D>,
    spare: u64,
    batch: &Batch,
    draft: &Draft,
) -> Result<Option<Lengthened>, InputFault>
    requires owner { number ≤ last_owner shared.old }
    requires sound { log.now.failed ≡ false }
    requires few { length draft.now.plan.step.outs < 2 ^ 32 }
    ensures longer { IfOk result (λ longer. IfSome longer (IsLonger D.meaning.meters log.now batch.now site.now draft.now)) }
    ensures claimed { IfOk result (λ longer. IfSome longer (λ _. shared.new ≡ shared.old ++ mark.Place number (length draft.now.plan.step.outs) ∷ [])) }
    ensures full { IfOk result (λ longer. longer ≡ None → TakesNoMore D.meaning.meters log.now batch.now draft.now × (shared.new ≡ shared.old)) }
    ensures kept { OnErr result (shared.new ≡ shared.old) }
    ensures refused { used_of shared.old < most_of shared.old → OnlyForMemory result }
{
    let alloc = shared.alloc();
    let records = both_records(alloc, batch.records.as_slice(), draft.plan.records())?;
    let body = both_bodies(alloc, batch.body.as_slice(), draft.body.as_slice())?;
    let Room::Ready(short) = shorten_batch(
        alloc,
        site,
        log,
        batch,
        records.as_slice(),
        body.len(),
        spare,
    )?
    else {
        return Ok(None);
    };
    shared.claim(number, room_for(draft.plan.outs()))?;
    Ok(Some(Lengthened {
        records,
        body,
        short,
    }))
}

// One input more, if the frame has room for what it records: it is planned behind those before it, and its place, which is
// left, is claimed. All memory is taken before the site does the step; behind that nothing is refused.
fn add_one<D: Disk>(
    shared: &mut Shared,
    number: u32,
    site: &mut Site,
    log: &Log<D>,
    spare: u64,
    batch: &mut Batch,
    input: &Input,
) -> Result<bool, InputFault>
    ghost at: { BatchAt }
    requires owner { number ≤ last_owner shared.old }
    requires site { number ≡ at.site }
    requires made { IsBatchAt D.meaning.meters log.now at batch.old site.old shared.old }
    requires sound { log.now.failed ≡ false }
    requires order { IsLogInOrder at.site (log_of at.scenario (stepped at.scenario at.history at.site at.done) at.site) }
    requires brief { BriefsAreTold at.scenario (stepped at.scenario at.history at.site at.done) at.site at.rose }
    requires left { used_of shared.old < most_of shared.old }
    requires few { length at.history + length at.done < 4000000000 }
    ensures owners { last_owner shared.new ≡ last_owner shared.old }
    ensures most { most_of shared.new ≡ most_of shared.old }
    ensures used { used_of shared.new ≤ used_of shared.old + 1 }
    ensures added { IfOk result (λ added. added ≡ true → IsBatchAt D.meaning.meters log.now (record at { done = at.done ++ input.now ∷ [] }) batch.new site.new shared.new) }
    ensures full { IfOk result (λ added. added ≡ false → IsBatchAt D.meaning.meters log.now at batch.new site.new shared.new × HasNoMoreRoom D.meaning.meters log.now at input.now) }
    ensures kept { OnErr result (IsBatchAt D.meaning.meters log.now at batch.new site.new shared.new) }
    ensures refused { OnlyForMemory result }
{
    reserve(&mut batch.steps)?;
    let draft = planned(shared.alloc(), site, input)?;
    match one_more(shared, number, site, log, spare, batch, &draft) {
        Ok(more) => match more {
            Some(longer) => {
                let step = step_with(number, site, input.copy(), draft);
                batch.steps.push_reserved(step);
                lengthen(batch, longer);
                Ok(true)
            }
            None => {
                drop(draft);
                Ok(false)
            }
        },
        Err(fault) => {
            drop(draft);
            Err(fault)
        }
    }
}

// These inputs, one behind the other, up to the first that is refused or that the frame has no room for: how many were added. A
// place is left for each. The records that the site rose with are passed on for the proof alone.
fn add_all<D: Disk>(
    shared: &mut Shared,
    number: u32,
    site: &mut Site,
    _rose: &List<Record>,
    log: &Log<D>,
    batch: &mut Batch,
    inputs: &[Input],
) -> Result<usize, InputFault>
    ghost at: { BatchAt }
    requires owner { number ≤ last_owner shared.old }
    requires site { number ≡ at.site }
    requires made { IsBatchAt D.meaning.meters log.now (record at { done = [] }) batch.old site.old shared.old }
    requires sound { log.now.failed ≡ false }
    requires orders { (n : ℕ) → n ≤ length inputs.now → IsLogInOrder at.site (log_of at.scenario (stepped at.scenario at.history at.site (take n inputs.now)) at.site) }
    requires briefs { (n : ℕ) → n ≤ length inputs.now → BriefsAreTold at.scenario (stepped at.scenario at.history at.site (take n inputs.now)) at.site at.rose }
    requires left { used_of shared.old + length inputs.now ≤ most_of shared.old }
    requires few { length at.history + length inputs.now ≤ 4000000000 }
    ensures added { (n : ℕ) × AreAdded D.meaning.meters log.now at.scenario at.history at.site inputs.now result n
        × IsBatchAt D.meaning.meters log.now (record at { done = take n inputs.now }) batch.new site.new shared.new }
    ensures refused { OnlyForMemory result }
{
    let spare = spare_for(site, inputs);
    for input in inputs {
        if !add_one(shared, number, site, log, spare, batch, input)? {
            return Ok(steps_in(batch));
        }
    }
    Ok(steps_in(batch))
}

/// In one turn, all that is promised to the site is freed, and the steps of these inputs are made, up to the first that is
/// refused or that the frame has no room for, with a place claimed for each: how many steps were made. So many places were
/// promised that no claim is refused for a full history. The records that the site rose with are passed on for the proof alone.
pub(crate) fn plan_all<R: Wait, D: Disk>(
    rt: &R,
    wire: &Wire,
    pass: &mut WirePass,
    number: u32,
    site: &mut Site,
    rose: &List<Record>,
    log: &Log<D>,
    batch: &mut Batch,
    inputs: &[Input],
) -> Result<usize, InputFault>
    requires idle { IsIdle wire.now pass.old }
    requires owns { Owns pass.old number }
    requires played { IsPlayed (seen_by pass.old) }
    requires exists { number ≤ last_owner (seen_by pass.old) }
    requires stands { StandsAlike (scenario_seen pass.old) (history_seen pass.old) number rose.now site.old }
    requires orders { (marks : Items Mark) → GrewByOthers belongs pass.old marks → IsPlayed marks → (n : ℕ) → n ≤ length inputs.now →
        IsLogInOrder number (log_of (scenario_of marks) (stepped (scenario_of marks) (entries_of marks) number (take n inputs.now)) number) }
    requires briefs { (marks : Items Mark) → GrewByOthers belongs pass.old marks → IsPlayed marks → (n : ℕ) → n ≤ length inputs.now →
        BriefsAreTold (scenario_of marks) (stepped (scenario_of marks) (entries_of marks) number (take n inputs.now)) number rose.now }
    requires empty { (batch.old.steps.items ≡ []) × (batch.old.records ≡ []) × (batch.old.body ≡ []) × (batch.old.short ≡ None) }
    requires sound { log.now.failed ≡ false }
    requires some { 1 ≤ length inputs.now }
    requires places { length inputs.now ≤ (note_of number (seen_by pass.old)).places }
    ensures idle { IsIdle wire.now pass.new }
    ensures same { SameOwners pass.old pass.new }
    ensures played { IsPlayed (seen_by pass.new) }
    ensures planned { HasPlanned D.meaning.meters log.now pass.old number rose.now site.old.inputs inputs.now result batch.new site.new (seen_by pass.new) }
    ensures refused { OnlyForMemory result }
{
    let mut shared = wire.take(rt, pass);
    shared.free(number);
    let added = add_all(&mut shared, number, site, rose, log, batch, inputs);
    wire.put(pass, shared);
    added
}

// The steps are entered, one behind the other.
fn enter_all(shared: &mut Shared, steps: Vec<Entry>)
    requires { MayEnterAll shared.old steps.items }
    ensures entered { shared.new ≡ shared.old ++ marks_in (entries_of shared.old) steps.items }
{
    for step in steps {
        shared.enter(step);
    }
}

/// In one turn, steps of the site of a pass are entered: nothing of others comes between them.
pub(crate) fn enter_steps<R: Wait>(rt: &R, wire: &Wire, pass: &mut WirePass, steps: Vec<Entry>)
    requires idle { IsIdle wire.now pass.old }
    requires owned { AreOwned pass.old steps.items }
    requires may { (marks : Items Mark) → GrewByOthers belongs pass.old marks → IsPlayed marks → MayEnterAll marks steps.items }
    ensures idle { IsIdle wire.now pass.new }
    ensures same { SameOwners pass.old pass.new }
    ensures played { IsPlayed (seen_by pass.new) }
    ensures entered { (between : Items Mark) × GrewByOthers belongs pass.old between × IsPlayed between
        × (seen_by pass.new ≡ between ++ marks_in (entries_of between) steps.items) }
{
    let mut shared = wire.take(rt, pass);
    enter_all(&mut shared, steps);
    wire.put(pass, shared);
}
