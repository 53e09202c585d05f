// Workers of nodes over the disks of a run, and the disks again.
ghost use Rattle.std.specs.Prelude.{◌≡◌, ◌≤◌, ◌<◌, ◌+◌, ◌++◌, ◌∷◌, [], ℕ, List as Items, length, map, OnOk, vec_len, vec_capacity};
ghost use Rattle.e3_fleet.specs.Fleets.{AreSeated, disks_of, nodes_of};
ghost use Rattle.e3_fleet.specs.Over.{AreBlank};

use crate::crew::Worker;
use e3_disk::{Disk, Drill};
use e3_node::Node;
use e3_readings::rows_at;
use e3_types::{Copied, NoMemory, Scenario};
use std::alloc::Global;

// Adds an item where there is room.
fn push_within<T: Drop>(items: &mut Vec<T>, item: T)
    requires { vec_len items.old < vec_capacity items.old }
    ensures items { items.new.items ≡ items.old.items ++ item ∷ [] }
    ensures room { vec_capacity items.old ≤ vec_capacity items.new }
{
    let _ = items.push(item);
}

// Puts an item to the front where there is room.
fn put_first<T: Drop>(items: &mut Vec<T>, item: T)
    requires { vec_len items.old < vec_capacity items.old }
    ensures items { items.new.items ≡ item ∷ items.old.items }
    ensures room { vec_capacity items.old ≤ vec_capacity items.new }
{
    let _ = items.insert(0, item);
}

// The node of the next site takes the first of the disks, and a worker takes the node.
fn seat_next<D: Disk + Drill + Drop>(
    alloc: Global,
    scenario: &Scenario,
    workers: &mut Vec<Worker<D>>,
    disks: &mut Vec<D>,
) -> Result<(), NoMemory>
    requires room { vec_len workers.old < vec_capacity workers.old }
    requires site { length workers.old.items < length scenario.now.weights }
    requires few { length scenario.now.weights ≤ 64 }
    requires enough { 0 < length disks.old.items }
    requires blank { AreBlank D.meaning disks.old.items }
    requires seated { AreSeated D.meaning scenario.now [] (nodes_of workers.old.items) }
    ensures seated { AreSeated D.meaning scenario.now [] (nodes_of workers.new.items) }
    ensures disks { disks_of (nodes_of workers.new.items) ++ disks.new.items ≡ disks_of (nodes_of workers.old.items) ++ disks.old.items }
    ensures more { OnOk result (length workers.new.items ≡ length workers.old.items + 1) }
    ensures blank { AreBlank D.meaning disks.new.items }
    ensures workers_room { vec_capacity workers.old ≤ vec_capacity workers.new }
    ensures disks_room { vec_capacity disks.new ≡ vec_capacity disks.old }
{
    let site = workers.len() as u32 + 1;
    let weights = scenario.weights.copied(alloc)?;
    let rows = rows_at(alloc, site, scenario.rows.as_slice())?;
    let disk = disks.remove(0);
    let node = Node::down(site, weights, rows, disk);
    push_within(workers, Worker::new(alloc, node));
    Ok(())
}

/// A worker with a node for each site of the scenario: each node takes its disk from the front. Where memory runs out, some
/// have taken theirs.
pub fn seat_all<D: Disk + Drill + Drop>(
    alloc: Global,
    scenario: &Scenario,
    workers: &mut Vec<Worker<D>>,
    disks: &mut Vec<D>,
) -> Result<(), NoMemory>
    requires empty { workers.old.items ≡ [] }
    requires few { length scenario.now.weights ≤ 64 }
    requires enough { length scenario.now.weights ≤ length disks.old.items }
    requires blank { AreBlank D.meaning disks.old.items }
    ensures seated { AreSeated D.meaning scenario.now [] (nodes_of workers.new.items) }
    ensures all { OnOk result (length workers.new.items ≡ length scenario.now.weights) }
    ensures disks { disks_of (nodes_of workers.new.items) ++ disks.new.items ≡ disks.old.items }
    ensures disks_room { vec_capacity disks.new ≡ vec_capacity disks.old }
{
    let count = scenario.weights.len() as usize;
    if workers.try_reserve(count).is_err() {
        return Err(NoMemory);
    }
    for seated in 0..count {
        seat_next(alloc, scenario, workers, disks)?;
    }
    Ok(())
}

/// The workers' nodes give their disks back to the front, in their order. There is room for them.
pub fn unseat_all<D: Disk + Drill + Drop>(mut workers: Vec<Worker<D>>, disks: &mut Vec<D>)
    requires { vec_len disks.old + length workers.items ≤ vec_capacity disks.old }
    ensures { disks.new.items ≡ disks_of (nodes_of workers.items) ++ disks.old.items }
{
    while let Some(worker) = workers.pop() {
        put_first(disks, worker.into_node().into_disk());
    }
}
