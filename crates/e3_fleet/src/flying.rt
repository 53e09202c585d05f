// A run of a scenario over disks.
ghost use Rattle.std.specs.Prelude.{◌≡◌, ◌≤◌, ◌<◌, ◌^◌, ◌++◌, ◌∷◌, [], length, OnOk, IfOk, Err, vec_capacity};
ghost use Rattle.e3_fleet.specs.Fleets.{AreSeated, AreUnarmed, FleetStands, HaveKept, IsTaken, disks_of, nodes_of};
ghost use Rattle.e3_fleet.specs.Over.{AreBlank, AreOver};
ghost use Rattle.e3_fleet.specs.Settling.{Stands, history_in, most_in, scenario_in};
ghost use Rattle.e3_play.specs.Delivered.{IsFull};
ghost use Rattle.e3_play.specs.declared.sites.RunFault.TheVariants.{HistoryFull};
ghost use Rattle.e3_turn.specs.Passes.{IsIdle, OwnsAll, last_of, seen_by};
ghost use Rattle.e3_wire.specs.Marks.{entries_of, last_owner, most_of, scenario_of};
ghost use Rattle.e3_wire.specs.Wires.{IsPlayed};
ghost use Rattle.e3_wire.specs.declared.marks.Mark.TheVariants as mark;
ghost use Rattle.e3_world.specs.Given.{IsGiven};
ghost use Rattle.e3_world.specs.Legal.{IsLegal, IsWhole};

use crate::counting::{disks_are_counted, have_halves};
use crate::crew::Worker;
use crate::fleet::Fleet;
use crate::held::Held;
use crate::pace::Pace;
use crate::playing::play;
use crate::seating::{seat_all, unseat_all};
use e3_disk::{Disk, Drill};
use e3_node::a_node_tells_of_its_disk;
use e3_outside::Gate;
use e3_play::RunFault;
use e3_types::{Copied, NoMemory, Scenario};
use e3_wire::{Shared, Wire, WirePass};
use e3_world::History;
use std::alloc::Global;
use std::sync::Wait;
use std::thread::Threads;

/// How a run over disks ended, its history, and the disks, that of site 1 first.
#[derive(Drop)]
pub struct Played<D: Drop> {
    pub ended: Result<(), RunFault>,
    pub history: History,
    pub disks: Vec<D>,
}

// A wire, the driver's pass, which has the turn, and what is shared.
#[derive(Drop)]
pub(crate) struct Opened {
    pub wire: Wire,
    pub pass: WirePass,
    pub shared: Shared,
}

// The driver takes what is shared for the first time, by the pass that owns all.
fn taken_first<R: Wait>(rt: &R, wire: Wire, pass: WirePass) -> Opened
    requires idle { IsIdle wire pass }
    requires all { OwnsAll pass }
    requires last { last_of pass ≡ last_owner (seen_by pass) }
    ensures taken { IsTaken result.wire result.pass result.shared }
    ensures same { result.shared ≡ seen_by pass }
    ensures played { IsPlayed result.shared }
{
    let mut pass = pass;
    let shared = wire.take(rt, &mut pass);
    Opened { wire, pass, shared }
}

// A wire of which the driver took what is shared.
fn open_wire<R: Wait>(
    rt: &R,
    alloc: Global,
    scenario: &Scenario,
    most: u32,
) -> Result<Opened, NoMemory>
    requires given { IsGiven scenario.now }
    requires most { most ≤ 2000000 }
    ensures taken { IfOk result (λ o. IsTaken o.wire o.pass o.shared) }
    ensures shared { IfOk result (λ o. o.shared ≡ mark.Start scenario.now most ∷ []) }
    ensures played { IfOk result (λ o. IsPlayed o.shared) }
{
    let opened = Wire::open(alloc, scenario.copied(alloc)?, most)?;
    let (wire, pass) = opened;
    Ok(taken_first(rt, wire, pass))
}

// The workers of all sites over their disks, and what they share.
fn open<D: Disk + Drill + Drop, R: Wait>(
    rt: &R,
    alloc: Global,
    scenario: &Scenario,
    most: u32,
    workers: &mut Vec<Worker<D>>,
    disks: &mut Vec<D>,
) -> Result<Opened, NoMemory>
    requires empty { workers.old.items ≡ [] }
    requires given { IsGiven scenario.now }
    requires most { most ≤ 2000000 }
    requires enough { length scenario.now.weights ≤ length disks.old.items }
    requires blank { AreBlank D.meaning disks.old.items }
    ensures seated { AreSeated D.meaning scenario.now [] (nodes_of workers.new.items) }
    ensures disks { disks_of (nodes_of workers.new.items) ++ disks.new.items ≡ disks.old.items }
    ensures disks_room { vec_capacity disks.new ≡ vec_capacity disks.old }
    ensures taken { IfOk result (λ o. IsTaken o.wire o.pass o.shared) }
    ensures stands { IfOk result (λ o. FleetStands D.meaning o.shared (nodes_of workers.new.items)) }
    ensures new { IfOk result (λ o. (scenario_of o.shared ≡ scenario.now) × (entries_of o.shared ≡ []) × (most_of o.shared ≡ most)) }
{
    let opened = open_wire(rt, alloc, scenario, most)?;
    match seat_all(alloc, scenario, workers, disks) {
        Ok(()) => Ok(opened),
        Err(NoMemory) => {
            // Handed to `drop`, it is given back by one call.
            drop(opened);
            Err(NoMemory)
        }
    }
}

impl<D: Disk + Drill + Drop> Fleet<D> {
    /// The sites of a scenario over the first of these disks, before anything happened, with a history of so many entries at
    /// most, 2,000,000 or fewer. Want of memory is the only error, and the disks are lost then.
    pub fn open<R: Wait>(
        rt: &R,
        alloc: Global,
        scenario: &Scenario,
        disks: Vec<D>,
        most: u32,
    ) -> Result<Fleet<D>, NoMemory>
        requires given { IsGiven scenario.now }
        requires most { most ≤ 2000000 }
        requires enough { length scenario.now.weights ≤ length disks.items }
        requires blank { AreBlank D.meaning disks.items }
        ensures stands { IfOk result (λ f. Stands D.meaning f) }
        ensures new { IfOk result (λ f. (scenario_in f ≡ scenario.now) × (history_in f ≡ []) × (most_in f ≡ most)) }
    {
        let mut disks = disks;
        let mut workers = Vec::new(alloc);
        let opened = open(rt, alloc, scenario, most, &mut workers, &mut disks)?;
        let Opened { wire, pass, shared } = opened;
        Ok(Fleet {
            alloc,
            wire,
            pass,
            held: Held { shared, workers },
        })
    }
}

// How a run with seated nodes ended, its history, and the workers.
#[derive(Drop)]
struct Flown<D: Disk + Drill + Drop> {
    ended: Result<(), RunFault>,
    history: History,
    workers: Vec<Worker<D>>,
}

// The run with seated nodes.
fn fly<D: Disk + Drill + Drop + Send, G: Gate + Sync, R: Wait + Threads + Sync>(
    rt: &R,
    alloc: Global,
    scenario: &Scenario,
    gate: &G,
    threads: usize,
    packets: u32,
    opened: Opened,
    workers: Vec<Worker<D>>,
) -> Flown<D>
    requires played { scenario_of opened.shared ≡ scenario.now }
    requires empty { entries_of opened.shared ≡ [] }
    requires taken { IsTaken opened.wire opened.pass opened.shared }
    requires stands { FleetStands D.meaning opened.shared (nodes_of workers.items) }
    requires given { IsGiven scenario.now }
    requires most { most_of opened.shared ≤ 2000000 }
    requires unarmed { AreUnarmed D.meaning.meters (nodes_of workers.items) }
    ensures legal { IsLegal scenario.now result.history.entries }
    ensures within { length result.history.entries ≤ most_of opened.shared }
    ensures whole { OnOk result.ended (IsWhole scenario.now result.history.entries) }
    ensures full { result.ended ≡ Err HistoryFull → IsFull scenario.now result.history.entries (most_of opened.shared) }
    ensures seated { AreSeated D.meaning scenario.now result.history.entries (nodes_of result.workers.items) }
    ensures kept { HaveKept D.meaning.meters scenario.now result.history.entries (nodes_of workers.items) (nodes_of result.workers.items) }
    ensures count { length result.workers.items ≡ length workers.items }
{
    disks_are_counted::<D>();
    let Opened { wire, pass, shared } = opened;
    let mut fleet = Fleet {
        alloc,
        wire,
        pass,
        held: Held { shared, workers },
    };
    let pace = Pace {
        gate,
        threads,
        packets,
    };
    let ended = play(rt, scenario, &pace, &mut fleet);
    let Fleet { held, .. } = fleet;
    let Held { shared, workers } = held;
    Flown {
        ended,
        history: shared.close(),
        workers,
    }
}

/// Plays a scenario over disks from its first rises to its end, with so many entries at most, 2,000,000 or fewer. Site k has
/// the k-th disk; those past the sites of the scenario are not touched, and all come back in their order. The sites work side
/// by side, in at most so many threads, each behind the gate before each turn of work, in which it takes so many packets at most,
/// from 1 to 8, and 8 for every other number.
pub fn play_over<D: Disk + Drill + Drop + Send, G: Gate + Sync, R: Wait + Threads + Sync>(
    rt: &R,
    alloc: Global,
    scenario: &Scenario,
    disks: Vec<D>,
    gate: &G,
    threads: usize,
    packets: u32,
    most: u32,
) -> Played<D>
    requires given { IsGiven scenario.now }
    requires most { most ≤ 2000000 }
    requires enough { length scenario.now.weights ≤ length disks.items }
    requires blank { AreBlank D.meaning disks.items }
    ensures legal { IsLegal scenario.now result.history.entries }
    ensures within { length result.history.entries ≤ most }
    ensures whole { OnOk result.ended (IsWhole scenario.now result.history.entries) }
    ensures full { result.ended ≡ Err HistoryFull → IsFull scenario.now result.history.entries most }
    ensures disks { AreOver D.meaning scenario.now result.history.entries disks.items result.disks.items }
{
    a_node_tells_of_its_disk::<D>();
    disks_are_counted::<D>();
    have_halves(disks.as_slice());
    let mut disks = disks;
    let mut workers = Vec::new(alloc);
    match open(rt, alloc, scenario, most, &mut workers, &mut disks) {
        Ok(opened) => {
            let Flown {
                ended,
                history,
                workers,
            } = fly(rt, alloc, scenario, gate, threads, packets, opened, workers);
            unseat_all(workers, &mut disks);
            Played {
                ended,
                history,
                disks,
            }
        }
        Err(NoMemory) => {
            unseat_all(workers, &mut disks);
            Played {
                ended: Err(RunFault::NoMemory),
                history: History::new(alloc),
                disks,
            }
        }
    }
}
