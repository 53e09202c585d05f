// How many calls of its disk a node makes for requests for votes that it is given in one call: it has one frame for all of them.
ghost use Rattle.std.specs.Prelude.{◌≡◌, ◌≢◌, ◌≤◌, [], length, IfOk, IfSome};
ghost use Rattle.e3_gate_runs.specs.TwoNodes.{AreTwo};
ghost use Rattle.e3_node.specs.NodeStands.{NodeStands};
ghost use Rattle.e3_turn.specs.Passes.{IsIdle, OwnsAll, last_of, seen_by};
ghost use Rattle.e3_wire.specs.Marks.{last_owner};
ghost use Rattle.e3_world.specs.Given.{IsGiven};
ghost use Rattle.e3_world.specs.Moves.{rows_at};

mod once;
mod two;

use crate::at_once::batches::{ASKED, scenario_of};
use crate::playing::{CAPACITY, MOST};
use e3_disk::{Disk, Drill, MemDisk};
use e3_node::Node;
use e3_readings::rows_at;
use e3_report::Page;
use e3_types::{Copied, List, NoMemory, Row, Scenario};
use e3_wire::{Wire, WirePass};
use once::takes_at_once;
use std::alloc::Global;
use std::sync::Wait;
use two::plays;

// The steps of the scenario, in the last of which its commits are asked for.
const STEPS: u32 = 2;

// How many packets a node took in one call, and the calls of its disk from its beginning to then.
#[derive(Clone, Copy)]
struct Counts {
    packets: u64,
    calls: u64,
}

// Two nodes play up to the requests, so many of which the second takes in one call: how many there were.
fn plays_up_to<D: Disk + Drill + Drop, R: Wait>(
    rt: &R,
    alloc: Global,
    wire: &Wire,
    pass: WirePass,
    node: &mut Node<D>,
    other: &mut Node<D>,
    most: u32,
) -> Option<u64>
    requires idle { IsIdle wire.now pass }
    requires all { OwnsAll pass }
    requires last { last_of pass ≡ last_owner (seen_by pass) }
    requires two { AreTwo D.meaning (seen_by pass) node.old other.old }
{
    let mut pass = pass;
    let mut shared = wire.take(rt, &mut pass);
    if !plays(alloc, &mut shared, node, other, STEPS) {
        drop(shared);
        return None;
    }
    takes_at_once(rt, alloc, wire, &mut pass, shared, other, most)
}

// The same in this scenario, before anything happened.
fn plays_scenario<D: Disk + Drill + Drop, R: Wait>(
    rt: &R,
    alloc: Global,
    scenario: Scenario,
    node: &mut Node<D>,
    other: &mut Node<D>,
    most: u32,
) -> Option<u64>
    requires given { IsGiven scenario }
    requires node { NodeStands D.meaning scenario [] node.old }
    requires other { NodeStands D.meaning scenario [] other.old }
    requires apart { node.old.site ≢ other.old.site }
{
    let Ok(opened) = Wire::open(alloc, scenario, MOST) else {
        return None;
    };
    let (wire, pass) = opened;
    plays_up_to(rt, alloc, &wire, pass, node, other, most)
}

// The same in a copy of this scenario.
fn plays_copy<D: Disk + Drill + Drop, R: Wait>(
    rt: &R,
    alloc: Global,
    scenario: &Scenario,
    node: &mut Node<D>,
    other: &mut Node<D>,
    most: u32,
) -> Option<u64>
    requires given { IsGiven scenario.now }
    requires node { NodeStands D.meaning scenario.now [] node.old }
    requires other { NodeStands D.meaning scenario.now [] other.old }
    requires apart { node.old.site ≢ other.old.site }
{
    match scenario.copied(alloc) {
        Ok(copy) => plays_scenario(rt, alloc, copy, node, other, most),
        Err(_) => None,
    }
}

// The node of a site with its rows; none without memory.
fn node_over(
    alloc: Global,
    scenario: &Scenario,
    site: u32,
    weights: List<u32>,
    rows: List<Row>,
) -> Option<Node<MemDisk>>
    requires some { 1 ≤ site }
    requires exists { site ≤ length scenario.now.weights }
    requires weights { weights ≡ scenario.now.weights }
    requires rows { rows ≡ rows_at site scenario.now.rows }
    ensures stands { IfSome result (λ n. NodeStands ⟦<MemDisk as Disk>⟧.meaning scenario.now [] n) }
    ensures site { IfSome result (λ n. n.site ≡ site) }
{
    match MemDisk::blank(alloc, CAPACITY) {
        Ok(disk) => Some(Node::down(site, weights, rows, disk)),
        Err(_) => None,
    }
}

// The first rows of a site.
fn rows_of(alloc: Global, scenario: &Scenario, site: u32) -> Result<List<Row>, NoMemory>
    ensures { IfOk result (λ rows. rows ≡ rows_at site scenario.now.rows) }
{
    rows_at(alloc, site, scenario.rows.as_slice())
}

// The node of a site over a blank disk; none without memory.
fn node_of(alloc: Global, scenario: &Scenario, site: u32) -> Option<Node<MemDisk>>
    requires some { 1 ≤ site }
    requires exists { site ≤ length scenario.now.weights }
    ensures stands { IfSome result (λ n. NodeStands ⟦<MemDisk as Disk>⟧.meaning scenario.now [] n) }
    ensures site { IfSome result (λ n. n.site ≡ site) }
{
    let Ok(weights) = scenario.weights.copied(alloc) else {
        return None;
    };
    match rows_of(alloc, scenario, site) {
        Ok(rows) => node_over(alloc, scenario, site, weights, rows),
        Err(_) => None,
    }
}

// The disk of a node.
fn disk_of<D: Disk + Drill + Drop>(node: Node<D>) -> D {
    node.into_disk()
}

// What the second of two nodes takes; none without memory.
fn taken_by<R: Wait>(
    rt: &R,
    alloc: Global,
    scenario: &Scenario,
    node: &mut Node<MemDisk>,
    other: Node<MemDisk>,
    most: u32,
) -> Option<Counts>
    requires given { IsGiven scenario.now }
    requires node { NodeStands ⟦<MemDisk as Disk>⟧.meaning scenario.now [] node.old }
    requires other { NodeStands ⟦<MemDisk as Disk>⟧.meaning scenario.now [] other }
    requires apart { node.old.site ≢ other.site }
{
    let mut other = other;
    let took = plays_copy(rt, alloc, scenario, node, &mut other, most);
    let disk = disk_of(other);
    let calls = disk.calls();
    drop(disk);
    match took {
        Some(packets) => Some(Counts { packets, calls }),
        None => None,
    }
}

// What the node of site 2 takes beside this node of site 1.
fn taken_beside<R: Wait>(
    rt: &R,
    alloc: Global,
    scenario: &Scenario,
    node: &mut Node<MemDisk>,
    most: u32,
) -> Option<Counts>
    requires given { IsGiven scenario.now }
    requires two { length scenario.now.weights ≡ 2 }
    requires node { NodeStands ⟦<MemDisk as Disk>⟧.meaning scenario.now [] node.old }
    requires site { node.old.site ≡ 1 }
{
    match node_of(alloc, scenario, 2) {
        Some(other) => taken_by(rt, alloc, scenario, node, other, most),
        None => None,
    }
}

// What the node of site 2 takes in one call, so many packets at most; none without memory.
fn taken<R: Wait>(rt: &R, alloc: Global, scenario: &Scenario, most: u32) -> Option<Counts>
    requires { IsGiven scenario.now }
{
    if scenario.weights.len() != 2 {
        return None;
    }
    match node_of(alloc, scenario, 1) {
        Some(mut node) => {
            let counts = taken_beside(rt, alloc, scenario, &mut node, most);
            drop(node);
            counts
        }
        None => None,
    }
}

// Adds the line of a node that is given so many requests at most.
fn push_taken<R: Wait>(rt: &R, alloc: Global, page: &mut Page, scenario: &Scenario, most: u32)
    requires { IsGiven scenario.now }
{
    match taken(rt, alloc, scenario, most) {
        Some(counts) => {
            page.labelled("packets in one call of a node: ", counts.packets);
            page.labelled(", calls of its disk so far: ", counts.calls);
        }
        None => page.lack(),
    }
    page.text("\n");
}

/// Adds how many calls of its disk a node makes by the end of its rise, and behind that of one request for a vote, or of eight that it
/// is given in one call.
pub fn push_nodes<R: Wait>(rt: &R, alloc: Global, page: &mut Page) {
    page.text("requests for votes at a node of site 2\n");
    let Some(scenario) = scenario_of(alloc, &ASKED) else {
        return page.lack();
    };
    for most in [0u32, 1, 8] {
        push_taken(rt, alloc, page, &scenario, most);
    }
    drop(scenario);
}
