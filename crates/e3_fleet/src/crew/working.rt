// What a worker gives to its node.
ghost use Rattle.std.specs.Prelude.{◌≡◌, ◌≢◌, ◌≤◌, [], true, false, length, map, vec_capacity, IfOk, OnErr, OnOk, Err};
ghost use Rattle.std.specs.List.{list_any};
ghost use Rattle.e3_fleet.specs.crew.Turns.{AreDone};
ghost use Rattle.e3_fleet.specs.crew.Workers.{AreTheFirst, HasGiven, HasWorked, HasWorkedWith, IsPassFor, ItemHadNoRoom, Knows, KnowsWith, NonePending, places_alone};
ghost use Rattle.e3_laws.specs.local.Drafts.{MayTake};
ghost use Rattle.e3_node.specs.Places.{HasGivenNoneBack};
ghost use Rattle.e3_node.specs.Turns.{history_seen, scenario_seen};
ghost use Rattle.e3_play.specs.declared.sites.RunFault.TheVariants.{HistoryFull};
ghost use Rattle.e3_turn.specs.Passes.{seen_by};
ghost use Rattle.e3_types.specs.declared.entries.Input.TheVariants as input;
ghost use Rattle.e3_wire.specs.Wires.{TakesLeast};
ghost use Rattle.e3_world.specs.Items.{is_delivery, is_up_at};
ghost use Rattle.e3_world.specs.Progress.{Through};

use crate::crew::fault::{given, run_fault};
use crate::crew::works::Works;
use e3_disk::{Disk, Drill};
use e3_node::{Node, others_leave_nodes};
use e3_outside::Gate;
use e3_play::RunFault;
use e3_types::{Input, List, NoMemory, Packet};
use e3_wire::{WirePass, places_are_noted};
use std::alloc::Global;
use std::sync::Wait;

// Gives an input to a node, while others go on. Where its site is down it is passed over.
fn give<D: Disk + Drill + Drop, G, R: Wait>(
    rt: &R,
    works: &Works<G>,
    pass: &mut WirePass,
    node: &mut Node<D>,
    input: Input,
) -> Result<(), RunFault>
    requires pass { IsPassFor works.now.wire.now node.old.site pass.old }
    requires knows { Knows D.meaning (seen_by pass.old) node.old }
    requires due { is_up_at (history_seen pass.old) node.old.site ≡ true → MayTake (scenario_seen pass.old) (history_seen pass.old) node.old.site input }
    requires takes { is_up_at (history_seen pass.old) node.old.site ≡ true → TakesLeast (scenario_seen pass.old) (history_seen pass.old) node.old.site input }
    ensures pass { IsPassFor works.now.wire.now node.new.site pass.new }
    ensures given { HasGiven D.meaning (seen_by pass.old) node.old input (seen_by pass.new) node.new result }
{
    others_leave_nodes::<D>();
    let answer = node.input_by_turns(rt, works.alloc, works.wire, pass, input);
    given(answer)
}

/// Gives the items of a site to its node, in their order.
pub(crate) fn give_items<D: Disk + Drill + Drop, G, R: Wait>(
    rt: &R,
    works: &Works<G>,
    pass: &mut WirePass,
    node: &mut Node<D>,
    items: &[Input],
) -> Result<(), RunFault>
    requires pass { IsPassFor works.now.wire.now node.old.site pass.old }
    requires knows { Knows D.meaning (seen_by pass.old) node.old }
    requires no_packets { list_any is_delivery items.now ≡ false }
    requires begun { AreDone (scenario_seen pass.old) (history_seen pass.old) node.old.site items.now 0 }
    ensures pass { IsPassFor works.now.wire.now node.new.site pass.new }
    ensures worked { HasWorked D.meaning (seen_by pass.old) node.old (seen_by pass.new) node.new }
    ensures done { OnOk result (AreDone (scenario_seen pass.old) (history_seen pass.new) node.old.site items.now (length items.now)) }
    ensures full { result ≡ Err HistoryFull → ItemHadNoRoom (seen_by pass.new) node.old.site }
    ensures none_back { HasGivenNoneBack node.old.site (seen_by pass.old) (seen_by pass.new) }
{
    for item in items {
        give(rt, works, pass, node, item.copy())?;
    }
    Ok(())
}

// Memory for the deliveries of so many packets. It is taken before a place is promised for any of them, so that nothing is
// refused between the promise and the batch that uses it.
fn memory_for(alloc: Global, packets: u32) -> Result<Vec<Input>, NoMemory>
    ensures empty { IfOk result (λ memory. memory.items ≡ []) }
    ensures enough { IfOk result (λ memory. packets ≤ vec_capacity memory) }
{
    match Vec::with_capacity(alloc, packets as usize) {
        Ok(memory) => Ok(memory),
        Err(_) => Err(NoMemory),
    }
}

// The deliveries of packets, in the memory that was taken for them.
fn deliveries(few: &[Packet], memory: Vec<Input>) -> List<Input>
    requires empty { memory.items ≡ [] }
    requires enough { length few.now ≤ vec_capacity memory }
    ensures { result ≡ map input.Deliver few.now }
{
    let mut inputs = memory;
    for packet in few {
        let packet = packet.copy();
        inputs.push_reserved(Input::Deliver { packet });
    }
    List::from_vec(inputs)
}

// The first packets to a node's site, so many at most, if its site is up; none only where none is pending to it. A place for
// each of them is promised to the site.
fn next_packets<D: Disk + Drill + Drop, G, R: Wait>(
    rt: &R,
    works: &Works<G>,
    pass: &mut WirePass,
    node: &Node<D>,
    most: u32,
) -> Result<List<Packet>, RunFault>
    requires pass { IsPassFor works.now.wire.now node.now.site pass.old }
    requires knows { Knows D.meaning (seen_by pass.old) node.now }
    requires some { 1 ≤ most }
    requires most { most ≤ 8 }
    ensures pass { IsPassFor works.now.wire.now node.now.site pass.new }
    ensures promised { IfOk result (λ few. HasWorkedWith D.meaning (places_alone (length few)) (seen_by pass.old) node.now (seen_by pass.new) node.now) }
    ensures kept { OnErr result (HasWorked D.meaning (seen_by pass.old) node.now (seen_by pass.new) node.now) }
    ensures few { IfOk result (λ few. length few ≤ most) }
    ensures some { IfOk result (λ few. few ≢ [] → AreTheFirst (seen_by pass.new) node.now.site few) }
    ensures none { IfOk result (λ few. few ≡ [] → NonePending (seen_by pass.new) node.now.site) }
{
    others_leave_nodes::<D>();
    places_are_noted();
    if !node.is_up() {
        return Ok(List::new(works.alloc));
    }
    match works
        .wire
        .next_few(rt, works.alloc, pass, node.site(), most)
    {
        Ok(few) => Ok(few),
        Err(fault) => Err(run_fault(fault)),
    }
}

// Gives packets to a node that is up, the first to its site, in one batch, while others go on. A place for each of them is
// promised to the site; behind the batch nothing is.
fn give_few<D: Disk + Drill + Drop, G, R: Wait>(
    rt: &R,
    works: &Works<G>,
    pass: &mut WirePass,
    node: &mut Node<D>,
    few: List<Packet>,
    memory: Vec<Input>,
) -> Result<(), RunFault>
    requires pass { IsPassFor works.now.wire.now node.old.site pass.old }
    requires knows { KnowsWith D.meaning (places_alone (length few)) (seen_by pass.old) node.old }
    requires some { few ≢ [] }
    requires first { AreTheFirst (seen_by pass.old) node.old.site few }
    requires through { Through (scenario_seen pass.old) (history_seen pass.old) }
    requires empty { memory.items ≡ [] }
    requires enough { length few ≤ vec_capacity memory }
    ensures pass { IsPassFor works.now.wire.now node.new.site pass.new }
    ensures worked { HasWorked D.meaning (seen_by pass.old) node.old (seen_by pass.new) node.new }
{
    others_leave_nodes::<D>();
    let inputs = deliveries(few.as_slice(), memory);
    let answer = node.batch(rt, works.alloc, works.wire, pass, inputs);
    given(answer)
}

// How many packets a worker takes for one turn at most.
fn few_of(packets: u32) -> u32
    ensures some { 1 ≤ result }
    ensures most { result ≤ 8 }
{
    if packets == 0 || packets > 8 {
        8
    } else {
        packets
    }
}

// A turn of work: the first packets to a node. It tells whether there were any.
fn take_few<D: Disk + Drill + Drop, G: Gate, R: Wait>(
    rt: &R,
    works: &Works<G>,
    pass: &mut WirePass,
    node: &mut Node<D>,
) -> Result<bool, RunFault>
    requires pass { IsPassFor works.now.wire.now node.old.site pass.old }
    requires knows { Knows D.meaning (seen_by pass.old) node.old }
    requires through { Through (scenario_seen pass.old) (history_seen pass.old) }
    ensures pass { IsPassFor works.now.wire.now node.new.site pass.new }
    ensures worked { HasWorked D.meaning (seen_by pass.old) node.old (seen_by pass.new) node.new }
    ensures done { IfOk result (λ some. some ≡ false → NonePending (seen_by pass.new) node.old.site) }
{
    let most = few_of(works.packets);
    let memory = memory_for(works.alloc, most)?;
    let few = next_packets(rt, works, pass, node, most)?;
    if few.is_empty() {
        return Ok(false);
    }
    works.gate.enter(node.site());
    give_few(rt, works, pass, node, few, memory)?;
    Ok(true)
}

/// Gives packets to a node, the first to its site, so many in one turn of work, until none is pending to it.
pub(crate) fn give_packets<D: Disk + Drill + Drop, G: Gate, R: Wait>(
    rt: &R,
    works: &Works<G>,
    pass: &mut WirePass,
    node: &mut Node<D>,
) -> Result<(), RunFault>
    requires pass { IsPassFor works.now.wire.now node.old.site pass.old }
    requires knows { Knows D.meaning (seen_by pass.old) node.old }
    requires through { Through (scenario_seen pass.old) (history_seen pass.old) }
    ensures pass { IsPassFor works.now.wire.now node.new.site pass.new }
    ensures worked { HasWorked D.meaning (seen_by pass.old) node.old (seen_by pass.new) node.new }
    ensures done { OnOk result (NonePending (seen_by pass.new) node.old.site) }
{
    for _ in rt.forever() {
        if !take_few(rt, works, pass, node)? {
            return Ok(());
        }
    }
    unreachable!()
}
