// Scenarios that are played over disks in memory.
ghost use Rattle.std.specs.Prelude.{◌≤◌, ◌^◌};
ghost use Rattle.e3_world.specs.Given.{IsGiven};

use e3_disk::MemDisk;
use e3_fleet::{Played, memory_disks, play_over};
use e3_outside::{Gate, OpenGate};
use e3_types::{List, Scenario};
use e3_world::History;
use std::alloc::Global;
use std::sync::Wait;
use std::thread::Threads;

/// The capacity of each disk, in bytes.
pub const CAPACITY: u64 = 65536;

/// In how many threads sites work.
pub const THREADS: usize = 1;

/// How many packets a worker takes in one turn of work at most.
pub const PACKETS: u32 = 8;

/// How many entries a history may have.
pub const MOST: u32 = 2_000_000;

/// What a play of this scenario leaves over disks of this capacity, behind a gate, in so many threads, a worker taking so many
/// packets at most in one turn of work; none without memory.
pub fn played_over<G: Gate + Sync, R: Wait + Threads + Sync>(
    rt: &R,
    alloc: Global,
    scenario: &Scenario,
    capacity: u64,
    gate: &G,
    threads: usize,
    packets: u32,
) -> Option<Played<MemDisk>>
    requires given { IsGiven scenario.now }
    requires least { 2 ≤ capacity }
    requires most { capacity ≤ 2 ^ 30 }
{
    let Ok(disks) = memory_disks(alloc, capacity, 0, List::new(alloc)) else {
        return None;
    };
    Some(play_over(rt, alloc, scenario, disks, gate, threads, packets, MOST))
}

/// The history of a play of this scenario; none without memory.
pub fn history_of<R: Wait + Threads + Sync>(
    rt: &R,
    alloc: Global,
    scenario: &Scenario,
) -> Option<History>
    requires { IsGiven scenario.now }
{
    let played = played_over(rt, alloc, scenario, CAPACITY, &OpenGate, THREADS, PACKETS)?;
    Some(played.history)
}
