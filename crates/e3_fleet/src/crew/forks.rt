// All workers at once: those that have something to take are at work each in a thread of its own.
ghost use Rattle.std.specs.Prelude.{◌≡◌, ◌+◌, ◌<◌, ◌≤◌, ℕ, length, All, slice_index_or};
ghost use Rattle.std.specs.Thread.{IsSync, IsSend};
ghost use Rattle.e3_fleet.specs.crew.Forks.{AllTook, CanTake, HasTaken};
ghost use Rattle.e3_fleet.specs.crew.Workers.{AddedByOthers, HasPass, IsDealt, KeepsItsOwn, seen_of};
ghost use Rattle.e3_fleet.specs.declared.crew.worker.Worker.{Worker as Workers};
ghost use Rattle.e3_turn.specs.Passes.{IsIdle, Owns, OwnsAll, last_of, seen_by};
ghost use Rattle.e3_wire.specs.Wires.{IsPlayed};

use crate::crew::Worker;
use crate::crew::worker::take_pass;
use crate::crew::working::{give_items, give_packets};
use crate::crew::works::Works;
use e3_disk::{Disk, Drill};
use e3_outside::Gate;
use e3_types::SiteSet;
use e3_wire::{Wire, WirePass};
use std::sync::Wait;
use std::thread;
use std::thread::{Threads, join_mut};

/// What workers take: their items, or packets until none is pending to them.
#[derive(Clone, Copy)]
pub enum Turn {
    Items,
    Packets,
}

/// A round of turns: what workers take in it, and the sites that have something to take when it begins.
#[derive(Drop)]
pub struct Round {
    pub turn: Turn,
    pub busy: SiteSet,
}

// A worker's turn. The worker has its pass again, whatever it met.
fn take_turn<D: Disk + Drill + Drop, G: Gate, R: Wait>(
    rt: &R,
    works: &Works<G>,
    turn: Turn,
    worker: &mut Worker<D>,
)
    requires { CanTake turn D.meaning works.now.wire.now worker.old }
    ensures { HasTaken turn D.meaning works.now.wire.now worker.old worker.new }
{
    let mut pass = take_pass(worker, works.wire);
    worker.ended = match turn {
        Turn::Items => give_items(
            rt,
            works,
            &mut pass,
            &mut worker.node,
            worker.items.as_slice(),
        ),
        Turn::Packets => give_packets(rt, works, &mut pass, &mut worker.node),
    };
    worker.pass = Some(pass);
}

// The turns of these workers one after the other, on the caller's thread.
fn take_in_order<D: Disk + Drill + Drop + Send, G: Gate + Sync, R: Wait + Threads + Sync>(
    rt: &R,
    works: &Works<G>,
    turn: Turn,
    workers: &mut [Worker<D>],
)
    requires { All (CanTake turn D.meaning works.now.wire.now) workers.old }
    ensures { AllTook turn D.meaning works.now.wire.now workers.old workers.new }
{
    thread::for_each_mut(
        rt,
        workers,
        1,
        &|_, worker| take_turn(rt, works, turn, worker),
    );
}

// How many of these workers are of these sites.
fn busy_among<D: Disk + Drill + Drop>(workers: &[Worker<D>], busy: SiteSet) -> usize {
    workers
        .iter()
        .filter(|worker| busy.has(worker.node.site()))
        .count()
}

// The first place with half of the busy workers before it, and neither end.
fn middle_of<D: Disk + Drill + Drop>(workers: &[Worker<D>], busy: SiteSet) -> usize
    requires { 1 < length workers.now }
    ensures front { 0 < result }
    ensures back { result < length workers.now }
{
    let half = busy_among(workers, busy) / 2;
    let last = workers.len() - 1;
    for at in 1..last {
        if busy_among(&workers[..at], busy) >= half {
            return at;
        }
    }
    last
}

/// Each worker has its turn, in at most so many threads. Of those that are of the busy sites no two share a thread, where so
/// many threads are allowed; a thread is started for each of them but one, which works on the caller's. The others work
/// beside them: they may come to have something to take.
#[cycle(forks)]
pub fn all_take<D: Disk + Drill + Drop + Send, G: Gate + Sync, R: Wait + Threads + Sync>(
    rt: &R,
    works: &Works<G>,
    round: &Round,
    threads: usize,
    workers: &mut [Worker<D>],
)
    requires { All (CanTake round.now.turn D.meaning works.now.wire.now) workers.old }
    ensures { AllTook round.now.turn D.meaning works.now.wire.now workers.old workers.new }
{
    if threads < 2 || workers.len() < 2 || busy_among(workers, round.busy) < 2 {
        take_in_order(rt, works, round.turn, workers);
        return;
    }
    let few = threads / 2;
    let (front, back) = workers.split_at_mut(middle_of(workers, round.busy));
    both_take(rt, works, round, few, threads - few, front, back);
}

// A function of its own, so that what the closures ask is what it is given.
#[cycle(forks)]
fn both_take<D: Disk + Drill + Drop + Send, G: Gate + Sync, R: Wait + Threads + Sync>(
    rt: &R,
    works: &Works<G>,
    round: &Round,
    few: usize,
    others: usize,
    front: &mut [Worker<D>],
    back: &mut [Worker<D>],
)
    requires some { (0 < length front.old) × (0 < length back.old) }
    requires front { All (CanTake round.now.turn D.meaning works.now.wire.now) front.old }
    requires back { All (CanTake round.now.turn D.meaning works.now.wire.now) back.old }
    ensures front { AllTook round.now.turn D.meaning works.now.wire.now front.old front.new }
    ensures back { AllTook round.now.turn D.meaning works.now.wire.now back.old back.new }
{
    let mut there = ||
        requires { IsSync R.row × IsSync G.row × IsSend D.row × All (CanTake round.now.turn D.meaning works.now.wire.now) front.now }
        ensures { AllTook round.entry.now.turn D.meaning works.entry.now.wire.now front.entry.now front.exit.now }
    { all_take(rt, works, round, few, front) };
    let mut here = ||
        requires { IsSync R.row × IsSync G.row × IsSend D.row × All (CanTake round.now.turn D.meaning works.now.wire.now) back.now }
        ensures { AllTook round.entry.now.turn D.meaning works.entry.now.wire.now back.entry.now back.exit.now }
    { all_take(rt, works, round, others, back) };
    join_mut(rt, &mut there, &mut here);
}

/// Gives each worker a pass for its site, off one that owns all.
pub fn deal<D: Disk + Drill + Drop>(wire: &Wire, workers: &mut [Worker<D>], pass: &mut WirePass)
    requires idle { IsIdle wire.now pass.old }
    requires all { OwnsAll pass.old }
    requires last { last_of pass.old ≡ length workers.old }
    requires sites { (i : ℕ) (d : Workers D) → i < length workers.old → (slice_index_or workers.old i d).node.site ≡ i + 1 }
    ensures idle { IsIdle wire.now pass.new }
    ensures driver { Owns pass.new 0 }
    ensures last { last_of pass.new ≡ last_of pass.old }
    ensures seen { seen_by pass.new ≡ seen_by pass.old }
    ensures dealt { (i : ℕ) (d : Workers D) → i < length workers.old →
        IsDealt wire.now (seen_by pass.old) (slice_index_or workers.old i d) (slice_index_or workers.new i d) }
{
    for worker in workers.iter_mut() {
        worker.pass = Some(wire.split(pass, worker.node.site()));
    }
}

/// Joins the passes of all workers into one, which then owns all. Behind what each pass had seen others put the rest.
pub fn gather<D: Disk + Drill + Drop>(wire: &Wire, workers: &mut [Worker<D>], pass: &mut WirePass)
    requires idle { IsIdle wire.now pass.old }
    requires driver { Owns pass.old 0 }
    requires played { IsPlayed (seen_by pass.old) }
    requires passes { (i : ℕ) (d : Workers D) → i < length workers.old →
        HasPass wire.now (slice_index_or workers.old i d) × ((slice_index_or workers.old i d).node.site ≡ i + 1) }
    requires each_played { (i : ℕ) (d : Workers D) → i < length workers.old → IsPlayed (seen_of (slice_index_or workers.old i d)) }
    ensures idle { IsIdle wire.now pass.new }
    ensures all { (o : ℕ) → o ≤ length workers.old → Owns pass.new o }
    ensures last { last_of pass.new ≡ last_of pass.old }
    ensures played { IsPlayed (seen_by pass.new) }
    ensures driver { AddedByOthers 0 (seen_by pass.old) (seen_by pass.new) }
    ensures each { (i : ℕ) (d : Workers D) → i < length workers.old →
        AddedByOthers (i + 1) (seen_of (slice_index_or workers.old i d)) (seen_by pass.new) }
    ensures same { (i : ℕ) (d : Workers D) → i < length workers.old →
        KeepsItsOwn (slice_index_or workers.old i d) (slice_index_or workers.new i d) }
{
    for worker in workers.iter_mut() {
        let theirs = take_pass(worker, wire);
        wire.join(pass, theirs);
    }
}
