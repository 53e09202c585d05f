// What a site's own entries come to: its incarnation and its open tail, and so its log.
ghost use Rattle.std.specs.Prelude.{◌≡◌, ◌++◌, ◌∷◌, [], Option, Some, None, fold, map, suc, length, ◌+◌, IfOk, OnOk};
ghost use Rattle.e3_types.specs.declared.entries.Act.TheVariants as act;
ghost use Rattle.e3_world.specs.Lives.{incarnation_of, present_log};
ghost use Rattle.e3_world.specs.Moves.{birth, left_by, log_of, moves_of, open_tail, own_entries, unnumbered, unnumbered_input, rise_records};
ghost use Rattle.e3_world.specs.Legal.{entry_of, made_by, numbered};
ghost use Rattle.e3_world.specs.Packets.{sent};
ghost use Rattle.e3_judge.specs.Standing.{kept_in, nothing_yet, standing_by};

use crate::counts::{add, count_on};
use crate::packets::sent_count;
use crate::prefix::Prefix;
use e3_readings::{present_log, rows_at};
use e3_step::plain::{step_of, unnumbered, unnumbered_input};
use e3_types::{Act, Copied, Entry, Input, List, NoMemory, Packet, Record, Scenario, Told, Why};
use e3_world::{Incarnation, Made, SiteStep};
use std::alloc::Global;
use std::marker::Model;
use std::mem;

/// Records that may or may not be on the disk, with the inputs that made them.
#[derive(Drop)]
pub struct Tail {
    pub inputs: List<Input>,
    pub records: List<Record>,
}

impl Model for Tail {
    ghost use Rattle.e3_world.specs.Moves.{Tail as Doubted};

    ghost Value = { Doubted };

    ghost view = { λ t. record { inputs = t.inputs; records = t.records } };
}

// What a site's entries come to: its incarnation, and the tail that is open.
#[derive(Drop)]
struct Standing {
    incarnation: Incarnation,
    tail: Option<Tail>,
}

fn unnumbered_outs(alloc: Global, outs: &[Packet]) -> Result<List<Packet>, NoMemory>
    ensures { IfOk result (λ out. out ≡ map unnumbered outs.now) }
{
    let mut out = List::new(alloc);
    for p in outs {
        let packet = unnumbered(p);
        out.push(packet)?;
    }
    Ok(out)
}

fn unnumbered_inputs(alloc: Global, inputs: &[Input]) -> Result<List<Input>, NoMemory>
    ensures { IfOk result (λ out. out ≡ map unnumbered_input inputs.now) }
{
    let mut out = List::new(alloc);
    for i in inputs {
        let input = unnumbered_input(i);
        out.push(input)?;
    }
    Ok(out)
}

// The log at present.
fn log_now(alloc: Global, now: &Incarnation) -> Result<List<Record>, NoMemory>
    ensures { IfOk result (λ log. log ≡ present_log now.now) }
{
    present_log(alloc, now.rose.as_slice(), now.since.as_slice())
}

// These records go into the log with which the site rises.
fn risen(alloc: Global, now: &Incarnation, records: &[Record]) -> Result<Incarnation, NoMemory>
    ensures { IfOk result (λ i. i ≡ record { rose = present_log now.now ++ records.now; since = [] }) }
{
    let mut rose = log_now(alloc, now)?;
    rose.add_copies(alloc, records)?;
    Ok(Incarnation {
        rose,
        since: List::new(alloc),
    })
}

// A tail that is kept goes into the log; one that is not, or none, leaves all as it was.
fn take_in_tail(alloc: Global, standing: &mut Standing, kept: bool) -> Result<(), NoMemory>
    ensures { OnOk result (standing.new.incarnation ≡ kept_in standing.old.incarnation kept standing.old.tail) }
{
    match &standing.tail {
        Some(tail) if kept => {
            let now = risen(alloc, &standing.incarnation, tail.records.as_slice())?;
            standing.incarnation = now;
            Ok(())
        }
        _ => Ok(()),
    }
}

// The birth of a site.
fn birth(alloc: Global, scenario: &Scenario, site: u32) -> Result<Record, NoMemory>
    ensures { IfOk result (λ r. r ≡ birth scenario.now site) }
{
    let weights = scenario.weights.copied(alloc)?;
    let rows = rows_at(alloc, site, scenario.rows.as_slice())?;
    Ok(Record::Birth {
        format: 1,
        site,
        weights,
        rows,
    })
}

// The records of a rise: its incarnation, with the birth before it where the log was empty.
fn rise_records(
    alloc: Global,
    scenario: &Scenario,
    site: u32,
    inc: u32,
    log: &[Record],
) -> Result<List<Record>, NoMemory>
    ensures { IfOk result (λ records. records ≡ rise_records scenario.now site inc log.now) }
{
    let mut records = List::new(alloc);
    if log.is_empty() {
        let birth = birth(alloc, scenario, site)?;
        records.push(birth)?;
    }
    records.push(Record::Inc { inc })?;
    Ok(records)
}

// A fault leaves its records in doubt; a frame that did not fit leaves nothing.
fn left_by(why: Why, inputs: List<Input>, records: List<Record>) -> Option<Tail>
    ensures { result ≡ left_by why inputs records }
{
    match why {
        Why::Fault => Some(Tail { inputs, records }),
        Why::Full { .. } => None,
    }
}

// A step, as an incarnation keeps it.
fn step_kept(
    alloc: Global,
    input: &Input,
    records: &List<Record>,
    outs: &List<Packet>,
    told: &List<Told>,
) -> Result<SiteStep, NoMemory>
    ensures { IfOk result (λ s. s ≡ record { input = unnumbered_input input.now; records = records.now; outs = map unnumbered outs.now; told = told.now }) }
{
    let records = records.copied(alloc)?;
    let outs = unnumbered_outs(alloc, outs.as_slice())?;
    let told = told.copied(alloc)?;
    Ok(SiteStep {
        input: unnumbered_input(input),
        records,
        outs,
        told,
    })
}

// A fall: what it left in doubt is the open tail.
fn fall(
    alloc: Global,
    standing: &mut Standing,
    inputs: &List<Input>,
    records: &List<Record>,
    why: Why,
) -> Result<(), NoMemory>
    ensures { OnOk result (standing.new ≡ record { incarnation = standing.old.incarnation; tail = left_by why (map unnumbered_input inputs.now) records.now }) }
{
    let inputs = unnumbered_inputs(alloc, inputs.as_slice())?;
    let records = records.copied(alloc)?;
    drop(mem::replace(&mut standing.tail, left_by(why, inputs, records)));
    Ok(())
}

// The records of a rise behind the log at present.
fn risen_with(
    alloc: Global,
    scenario: &Scenario,
    site: u32,
    inc: u32,
    now: &Incarnation,
) -> Result<List<Record>, NoMemory>
    ensures { IfOk result (λ records. records ≡ rise_records scenario.now site inc (present_log now.now)) }
{
    let log = log_now(alloc, now)?;
    rise_records(alloc, scenario, site, inc, log.as_slice())
}

// A rise: the tail where it is kept, and then the records of the rise, stand in the log, and no tail is open.
fn rise(
    alloc: Global,
    scenario: &Scenario,
    site: u32,
    standing: &mut Standing,
    kept: bool,
    inc: u32,
) -> Result<(), NoMemory>
    ensures { OnOk result (standing.new ≡ standing_by scenario.now site standing.old (act.Rise kept inc)) }
{
    take_in_tail(alloc, standing, kept)?;
    let records = risen_with(alloc, scenario, site, inc, &standing.incarnation)?;
    let now = risen(alloc, &standing.incarnation, records.as_slice())?;
    drop(mem::replace(&mut standing.incarnation, now));
    drop(mem::replace(&mut standing.tail, None));
    Ok(())
}

// A rise that fails: what is in doubt of its records is the open tail.
fn rise_and_fall(
    alloc: Global,
    scenario: &Scenario,
    site: u32,
    standing: &mut Standing,
    kept: bool,
    inc: u32,
    why: Why,
) -> Result<(), NoMemory>
    ensures { OnOk result (standing.new ≡ standing_by scenario.now site standing.old (act.RiseFall kept inc why)) }
{
    take_in_tail(alloc, standing, kept)?;
    let records = risen_with(alloc, scenario, site, inc, &standing.incarnation)?;
    drop(mem::replace(&mut standing.tail, left_by(why, List::new(alloc), records)));
    Ok(())
}

// One more act of the site.
fn stand_by(
    alloc: Global,
    scenario: &Scenario,
    site: u32,
    standing: &mut Standing,
    act: &Act,
) -> Result<(), NoMemory>
    ensures { OnOk result (standing.new ≡ standing_by scenario.now site standing.old act.now) }
{
    match act {
        Act::Rise { kept, inc } => rise(alloc, scenario, site, standing, *kept, *inc),
        Act::RiseFall { kept, inc, why } => {
            rise_and_fall(alloc, scenario, site, standing, *kept, *inc, *why)
        }
        Act::Step {
            input,
            records,
            outs,
            told,
        } => {
            let step = step_kept(alloc, input, records, outs, told)?;
            standing.incarnation.since.push(step)
        }
        Act::Fall {
            inputs,
            records,
            why,
        } => fall(alloc, standing, inputs, records, *why),
        _ => Ok(()),
    }
}

// The number of the next packet.
fn first_free(history: &[Entry]) -> Result<u64, NoMemory>
    ensures { IfOk result (λ number. number ≡ suc (length (sent history.now))) }
{
    add(sent_count(history)?, 1)
}

// The packets with numbers from this one on.
fn numbered(alloc: Global, first: u64, outs: &[Packet]) -> Result<List<Packet>, NoMemory>
    ensures { IfOk result (λ packets. packets ≡ numbered first outs.now) }
{
    let mut packets = List::new(alloc);
    let mut number = first;
    for out in outs {
        let mut packet = out.copy();
        packet.number = number;
        packets.push(packet)?;
        number = add(number, 1)?;
    }
    Ok(packets)
}

impl Prefix<'_> {
    // Goes over the site's entries.
    fn stand_by_all(&self, site: u32, standing: &mut Standing) -> Result<(), NoMemory>
        ensures { OnOk result (standing.new ≡ fold (λ was e. standing_by self.now.scenario.now site was e.act) standing.old (own_entries site self.now.entries.now)) }
    {
        for e in self.entries {
            if e.owner == site {
                stand_by(self.alloc, self.scenario, site, standing, &e.act)?;
            }
        }
        Ok(())
    }

    // What the site's entries come to.
    fn standing_at(&self, site: u32) -> Result<Standing, NoMemory>
        ensures { IfOk result (λ s. s ≡ fold (λ was e. standing_by self.now.scenario.now site was e.act) nothing_yet (own_entries site self.now.entries.now)) }
    {
        let mut standing = Standing {
            incarnation: Incarnation {
                rose: List::new(self.alloc),
                since: List::new(self.alloc),
            },
            tail: None,
        };
        self.stand_by_all(site, &mut standing)?;
        Ok(standing)
    }

    /// The present incarnation of a site.
    pub fn incarnation_at(&self, site: u32) -> Result<Incarnation, NoMemory>
        ensures { IfOk result (λ i. i ≡ incarnation_of (moves_of self.now.scenario.now self.now.entries.now site)) }
    {
        let standing = self.standing_at(site)?;
        Ok(standing.incarnation)
    }

    /// The open tail of a site.
    pub fn tail_at(&self, site: u32) -> Result<Option<Tail>, NoMemory>
        ensures { IfOk result (λ tail. tail ≡ open_tail self.now.scenario.now self.now.entries.now site) }
    {
        let standing = self.standing_at(site)?;
        Ok(standing.tail)
    }

    /// The log of a site.
    #[tactic(auto, using(crate::proofs::Standings::log_stands))]
    pub fn log_at(&self, site: u32) -> Result<List<Record>, NoMemory>
        ensures { IfOk result (λ log. log ≡ log_of self.now.scenario.now self.now.entries.now site) }
    {
        let incarnation = self.incarnation_at(site)?;
        log_now(self.alloc, &incarnation)
    }

    /// The step that an input would make a site do now. Its packets have the number 0.
    pub fn made_by(&self, site: u32, input: &Input) -> Result<Made, NoMemory>
        ensures { IfOk result (λ made. made ≡ made_by self.now.scenario.now self.now.entries.now site input.now) }
    {
        let now = self.incarnation_at(site)?;
        count_on(now.since.len())?;
        step_of(
            self.alloc,
            self.scenario.weights.as_slice(),
            site,
            now.rose.as_slice(),
            now.since.as_slice(),
            input,
        )
    }

    // These packets with the next numbers.
    fn next_outs(&self, outs: &[Packet]) -> Result<List<Packet>, NoMemory>
        ensures { IfOk result (λ packets. packets ≡ numbered (suc (length (sent self.now.entries.now))) outs.now) }
    {
        let first = first_free(self.entries)?;
        numbered(self.alloc, first, outs)
    }

    /// The step entry of an input that comes to the site now: its packets have the next numbers.
    pub fn entry_of(&self, site: u32, input: &Input) -> Result<Entry, NoMemory>
        ensures { IfOk result (λ entry. entry ≡ entry_of self.now.scenario.now self.now.entries.now site input.now) }
    {
        let Made {
            records,
            outs: unnumbered,
            told,
            own,
        } = self.made_by(site, input)?;
        drop(own);
        let outs = self.next_outs(unnumbered.as_slice())?;
        drop(unnumbered);
        Ok(Entry {
            owner: site,
            act: Act::Step {
                input: input.copy(),
                records,
                outs,
                told,
            },
        })
    }
}
