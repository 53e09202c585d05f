// The inputs of items, and which of them go to a site.
ghost use Rattle.std.specs.Prelude.{◌≡◌, ◌++◌, ◌∷◌, [], filter_map, IfOk, option_copied};
ghost use Rattle.e3_readings.specs.Inputs.{input_by_name, input_for, input_with, name_in};
ghost use Rattle.e3_world.specs.Items.{inputs_to, is_delivery};

use crate::bound_names::BoundNames;
use e3_types::{Input, Item, List, Name, NoMemory, Op, Txn};
use e3_world::Addressed;
use std::alloc::Global;

// The input of a transaction's coordinator.
fn to_coordinator(txn: &Txn, input: Input) -> Addressed
    ensures { result ≡ record { site = txn.now.site; input = input } }
{
    Addressed {
        site: txn.site,
        input,
    }
}

// The name of the transaction that an item is about, where it is bound by an earlier begin.
fn name_in(item: &Item) -> Option<&Name>
    ensures { option_copied result ≡ name_in item.now }
{
    match item {
        Item::Read { name, .. }
        | Item::Write { name, .. }
        | Item::Commit { name }
        | Item::Cancel { name }
        | Item::Expire { name, .. }
        | Item::Elect { name, .. } => Some(name),
        _ => None,
    }
}

// The input of an item about this transaction.
fn input_for(item: &Item, txn: &Txn) -> Option<Addressed>
    ensures { result ≡ input_for item.now txn.now }
{
    match item {
        Item::Read { key, .. } => Some(to_coordinator(
            txn,
            Input::Do {
                txn: *txn,
                op: Op::Read(key.copy()),
            },
        )),
        Item::Write { key, val, .. } => Some(to_coordinator(
            txn,
            Input::Do {
                txn: *txn,
                op: Op::Write(key.copy(), val.copy()),
            },
        )),
        Item::Commit { .. } => Some(to_coordinator(txn, Input::Commit { txn: *txn })),
        Item::Cancel { .. } => Some(to_coordinator(txn, Input::Cancel { txn: *txn })),
        Item::Expire { site, .. } => Some(Addressed {
            site: *site,
            input: Input::Expire { txn: *txn },
        }),
        Item::Elect { site, sites, .. } => Some(Addressed {
            site: *site,
            input: Input::Elect {
                txn: *txn,
                group: *sites,
            },
        }),
        _ => None,
    }
}

// The input of an item that is no begin.
fn input_by_name(bound: &BoundNames, item: &Item) -> Option<Addressed>
    ensures { result ≡ input_by_name bound.now.bound item.now }
{
    let name = name_in(item)?;
    let txn = bound.meant(name)?;
    input_for(item, &txn)
}

// The input of an item and the site that takes it; none for an item of another kind, and where its name is not bound.
#[tactic(auto, using(crate::proofs::ByName::input_later))]
fn input_with(bound: &BoundNames, item: &Item) -> Option<Addressed>
    ensures { result ≡ input_with bound.now.bound item.now }
{
    match item {
        Item::Begin { site, sites, .. } => Some(Addressed {
            site: *site,
            input: Input::Begin { sites: *sites },
        }),
        _ => input_by_name(bound, item),
    }
}

// Adds the input of an item, where it has one.
fn add_input(bound: &BoundNames, item: &Item, inputs: &mut List<Addressed>) -> Result<(), NoMemory>
    ensures { IfOk result (λ u. inputs.new ≡ inputs.old ++ filter_map (input_with bound.now.bound) (item.now ∷ [])) }
{
    match input_with(bound, item) {
        Some(a) => inputs.push(a),
        None => Ok(()),
    }
}

/// What these items ask of the sites, in their order. An item whose name is not bound asks nothing.
pub fn inputs_asked(
    alloc: Global,
    bound: &BoundNames,
    items: &[Item],
) -> Result<List<Addressed>, NoMemory>
    ensures { IfOk result (λ inputs. inputs ≡ filter_map (input_with bound.now.bound) items.now) }
{
    let mut inputs = List::new(alloc);
    for item in items {
        add_input(bound, item, &mut inputs)?;
    }
    Ok(inputs)
}

/// Those of these inputs that go to a site, in their order.
pub fn inputs_to(alloc: Global, asked: &[Addressed], site: u64) -> Result<List<Input>, NoMemory>
    ensures { IfOk result (λ inputs. inputs ≡ inputs_to site asked.now) }
{
    let mut inputs = List::new(alloc);
    for a in asked {
        if a.site as u64 == site {
            inputs.push(a.input.copy())?;
        }
    }
    Ok(inputs)
}

/// The input is a packet, and no item of the scenario.
pub fn is_delivery(input: &Input) -> bool
    ensures { result ≡ is_delivery input.now }
{
    matches!(input, Input::Deliver { .. })
}
