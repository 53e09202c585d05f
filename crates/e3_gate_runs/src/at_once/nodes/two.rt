// Two nodes over what they share, which are given inputs one by one. The judge is asked whether each entry is allowed, so no proof has
// to tell how far the run is.
ghost use Rattle.std.specs.Prelude.{◌≡◌, true, List as Items};
ghost use Rattle.e3_gate_runs.specs.TwoNodes.{AreTwo, HaveGoneOn};
ghost use Rattle.e3_play.specs.Entering.{IsFirst};
ghost use Rattle.e3_types.specs.declared.entries.Entry.{Entry as Entries};
ghost use Rattle.e3_types.specs.declared.scenarios.Scenario.{Scenario};
ghost use Rattle.e3_wire.specs.Marks.{entries_of, scenario_of};
ghost use Rattle.e3_world.specs.Legal.{Guard, entry_of};

use e3_disk::{Disk, Drill};
use e3_judge::{Prefix, checks_are_exact};
use e3_node::{Node, other_entries_keep_nodes};
use e3_types::{Act, Entry, Input};
use e3_wire::Shared;
use std::alloc::Global;

// The judge allows the entry.
fn is_allowed(alloc: Global, shared: &Shared, entry: Entry) -> bool
    ensures { result ≡ true → Guard (scenario_of shared.now) (entries_of shared.now) entry }
{
    checks_are_exact();
    shared.tell();
    let before = Prefix::of(alloc, shared.scenario(), shared.history());
    let breach = before.entry_breach(&entry);
    drop(entry);
    matches!(breach, Ok(None))
}

// The node rises.
fn rises<D: Disk + Drill + Drop>(
    alloc: Global,
    shared: &mut Shared,
    node: &mut Node<D>,
    other: &Node<D>,
) -> bool
    requires { AreTwo D.meaning shared.old node.old other.now }
    ensures { result ≡ true → HaveGoneOn D.meaning shared.old shared.new node.new other.now }
{
    other_entries_keep_nodes::<D>();
    let (owner, act) = (node.site(), Act::Miss);
    if !is_allowed(alloc, shared, Entry { owner, act }) {
        return false;
    }
    match node.rise(shared) {
        Ok(_inc) => true,
        Err(_) => false,
    }
}

// The line of a step is entered.
fn enters_line<D: Disk + Drill + Drop>(
    alloc: Global,
    shared: &mut Shared,
    node: &Node<D>,
    other: &Node<D>,
    number: u32,
) -> bool
    requires { AreTwo D.meaning shared.old node.now other.now }
    ensures { result ≡ true → HaveGoneOn D.meaning shared.old shared.new node.now other.now }
{
    other_entries_keep_nodes::<D>();
    let (owner, act) = (0, Act::Line { number });
    if !is_allowed(alloc, shared, Entry { owner, act }) {
        return false;
    }
    let entered = shared.line(number);
    shared.tell();
    match entered {
        Ok(()) => true,
        Err(_) => false,
    }
}

// The judge allows the step that the node makes of this input.
fn may_take<D: Disk + Drill + Drop>(
    alloc: Global,
    shared: &Shared,
    node: &Node<D>,
    input: &Input,
) -> bool
    ensures { result ≡ true → Guard (scenario_of shared.now) (entries_of shared.now) (entry_of (scenario_of shared.now) (entries_of shared.now) node.now.site input.now) }
{
    let before = Prefix::of(alloc, shared.scenario(), shared.history());
    match before.entry_of(node.site(), input) {
        Ok(step) => is_allowed(alloc, shared, step),
        Err(_) => false,
    }
}

// The node takes an input.
fn takes<D: Disk + Drill + Drop>(
    alloc: Global,
    shared: &mut Shared,
    node: &mut Node<D>,
    other: &Node<D>,
    input: Input,
) -> bool
    requires two { AreTwo D.meaning shared.old node.old other.now }
    requires first { IsFirst (scenario_of shared.old) (entries_of shared.old) input }
    ensures { result ≡ true → HaveGoneOn D.meaning shared.old shared.new node.new other.now }
{
    other_entries_keep_nodes::<D>();
    if !may_take(alloc, shared, node, &input) {
        return false;
    }
    match node.input(shared, input) {
        Ok(()) => true,
        Err(_) => false,
    }
}

// No input but a delivery asks for anything more.
fn is_no_delivery(input: &Input) -> bool
    ensures { (sc : Scenario) (h : Items Entries) → result ≡ true → IsFirst sc h input.now }
{
    !matches!(input, Input::Deliver { .. })
}

// The node takes these items, in their order.
fn takes_all<D: Disk + Drill + Drop>(
    alloc: Global,
    shared: &mut Shared,
    node: &mut Node<D>,
    other: &Node<D>,
    items: &[Input],
) -> bool
    requires { AreTwo D.meaning shared.old node.old other.now }
    ensures { result ≡ true → HaveGoneOn D.meaning shared.old shared.new node.new other.now }
{
    for item in items {
        let input = item.copy();
        if !is_no_delivery(&input) || !takes(alloc, shared, node, other, input) {
            return false;
        }
    }
    true
}

// The line of a step is entered, and the first node takes what the step asks of it.
fn begins<D: Disk + Drill + Drop>(
    alloc: Global,
    shared: &mut Shared,
    node: &mut Node<D>,
    other: &Node<D>,
    number: u32,
) -> bool
    requires { AreTwo D.meaning shared.old node.old other.now }
    ensures { result ≡ true → HaveGoneOn D.meaning shared.old shared.new node.new other.now }
{
    if !enters_line(alloc, shared, node, other, number) {
        return false;
    }
    let so_far = Prefix::of(alloc, shared.scenario(), shared.history());
    match so_far.inputs_at(node.site()) {
        Ok(items) => takes_all(alloc, shared, node, other, items.as_slice()),
        Err(_) => false,
    }
}

/// Both nodes rise, and the first one takes what these steps ask of it. No packet is on its way before the last of them; those
/// that come of it are on their way then.
pub fn plays<D: Disk + Drill + Drop>(
    alloc: Global,
    shared: &mut Shared,
    node: &mut Node<D>,
    other: &mut Node<D>,
    steps: u32,
) -> bool
    requires { AreTwo D.meaning shared.old node.old other.old }
    ensures { result ≡ true → HaveGoneOn D.meaning shared.old shared.new node.new other.new }
{
    if !rises(alloc, shared, node, other) || !rises(alloc, shared, other, node) {
        return false;
    }
    for number in 0..steps {
        if !begins(alloc, shared, node, other, number + 1) {
            return false;
        }
    }
    true
}
