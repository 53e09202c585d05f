// The first packets to a node, which takes them in one call.
ghost use Rattle.std.specs.Prelude.{◌≡◌, true, false, map, IfSome};
ghost use Rattle.e3_fleet.specs.Fleets.{IsTaken};
ghost use Rattle.e3_gate_runs.specs.AtOnce.{MayTakeAtOnce};
ghost use Rattle.e3_node.specs.NodeStands.{NodeStands};
ghost use Rattle.e3_turn.specs.Passes.{IsIdle};
ghost use Rattle.e3_types.specs.declared.entries.Input.TheVariants as input;
ghost use Rattle.e3_wire.specs.Marks.{entries_of, scenario_of};
ghost use Rattle.e3_world.specs.Items.{items_through};
ghost use Rattle.e3_world.specs.Packets.{is_calm, present_items};

use e3_disk::{Disk, Drill};
use e3_judge::{Prefix, is_calm, present_items};
use e3_node::Node;
use e3_types::{Input, List, Packet};
use e3_wire::{Shared, Wire, WirePass, places_are_noted};
use std::alloc::Global;
use std::sync::Wait;

// How many packets a node takes in one call at most.
const MOST: u32 = 8;

// All items are taken, and no recover step is on.
fn is_delivering(alloc: Global, shared: &Shared) -> bool
    ensures through { result ≡ true → items_through (scenario_of shared.now) (entries_of shared.now) ≡ true }
    ensures restless { result ≡ true → is_calm (present_items (scenario_of shared.now) (entries_of shared.now)) ≡ false }
{
    let so_far = Prefix::of(alloc, shared.scenario(), shared.history());
    if is_calm(present_items(so_far.scenario, so_far.entries)) {
        return false;
    }
    matches!(so_far.items_through(), Ok(true))
}

// Their deliveries.
fn deliveries(alloc: Global, few: List<Packet>) -> Option<List<Input>>
    ensures { IfSome result (λ inputs. inputs ≡ map input.Deliver few) }
{
    let mut inputs = List::new(alloc);
    for packet in few.into_vec() {
        inputs.push(Input::Deliver { packet }).ok()?;
    }
    Some(inputs)
}

// The node takes these inputs in one call, before which the history has so many entries: how many it has more behind that.
fn takes_all<D: Disk + Drill + Drop, R: Wait>(
    rt: &R,
    alloc: Global,
    wire: &Wire,
    pass: &mut WirePass,
    node: &mut Node<D>,
    inputs: List<Input>,
    before: u64,
) -> Option<u64>
    requires idle { IsIdle wire.now pass.old }
    requires may { MayTakeAtOnce D.meaning pass.old node.old inputs }
{
    match node.batch(rt, alloc, wire, pass, inputs) {
        Ok(_) => Some(wire.len(rt, pass).saturating_sub(before)),
        Err(_) => None,
    }
}

/// A node takes the first packets to it in one call, so many at most, and eight: how many entries came of that.
pub fn takes_at_once<D: Disk + Drill + Drop, R: Wait>(
    rt: &R,
    alloc: Global,
    wire: &Wire,
    pass: &mut WirePass,
    shared: Shared,
    node: &mut Node<D>,
    most: u32,
) -> Option<u64>
    requires taken { IsTaken wire.now pass.old shared }
    requires node { NodeStands D.meaning (scenario_of shared) (entries_of shared) node.old }
{
    places_are_noted();
    shared.tell();
    if most > MOST || !is_delivering(alloc, &shared) {
        drop(shared);
        return None;
    }
    let before = shared.history().len() as u64;
    let mut shared = shared;
    match shared.next_few(alloc, node.site(), most) {
        Ok(few) => {
            wire.put(pass, shared);
            match deliveries(alloc, few) {
                Some(inputs) => {
                    if inputs.is_empty() {
                        return Some(0);
                    }
                    takes_all(rt, alloc, wire, pass, node, inputs, before)
                }
                None => None,
            }
        }
        Err(_) => {
            drop(shared);
            None
        }
    }
}
