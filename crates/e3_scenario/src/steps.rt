// The steps of a scenario.
ghost use Rattle.std.specs.Prelude.{◌≡◌, ◌≤◌, ◌++◌, [], ◌∷◌, IfOk, OnOk, length, map};
ghost use Rattle.toml.specs.View.{view};
ghost use Rattle.e3_scenario.specs.Faults.{take_item};
ghost use Rattle.e3_scenario.specs.Steps.{judged, item_in, with_so_far, items_read, step_read, steps_read};

use crate::documents::values;
use crate::faults::ScenarioFault;
use crate::items::item;
use crate::judging::item_fault;
use crate::so_far::SoFar;
use e3_types::{Item, List, NoMemory, SiteSet};
use e3_world::is_groupable;
use std::alloc::Global;
use std::slice;
use toml::Value;

/// What reading gives where memory does not run out: a value, or the fault of the scenario.
pub type Read<T> = Result<T, ScenarioFault>;

fn judged(
    all: SiteSet,
    step: u32,
    grouped: bool,
    so_far: &SoFar,
    spelled: Option<Item>,
) -> Result<Item, ScenarioFault>
    ensures { result ≡ judged all step grouped so_far.now spelled }
{
    let Some(item) = spelled else {
        return Err(ScenarioFault::BadLine { step });
    };
    if grouped && !is_groupable(&item) {
        return Err(ScenarioFault::BadLine { step });
    }
    match item_fault(all, step, so_far, &item) {
        None => Ok(item),
        Some(fault) => Err(fault),
    }
}

fn item_in(alloc: Global, value: &Value) -> Result<Option<Item>, NoMemory>
    ensures { IfOk result (λ item. item ≡ item_in (view value.now)) }
{
    match value.as_str() {
        None => Ok(None),
        Some(text) => item(alloc, text.as_bytes()),
    }
}

// One more item of a step is taken in.
fn add_item(
    alloc: Global,
    all: SiteSet,
    so_far: &mut SoFar,
    items: &mut List<Item>,
    item: Item,
) -> Result<(), NoMemory>
    ensures { OnOk result ((so_far.new ≡ take_item all so_far.old item) × (items.new ≡ items.old ++ item ∷ [])) }
{
    match so_far.take_item(alloc, all, &item) {
        Ok(()) => items.push(item),
        Err(NoMemory) => {
            drop(item);
            Err(NoMemory)
        }
    }
}

// The items of a step. Where one has a fault, what they come to is of no use any more.
#[tactic(auto, using(crate::proofs::Values::next_value))]
fn items(
    alloc: Global,
    all: SiteSet,
    step: u32,
    grouped: bool,
    so_far: &mut SoFar,
    values: &[Value],
) -> Result<Read<List<Item>>, NoMemory>
    ensures { IfOk result (λ read. with_so_far so_far.new read ≡ items_read all step grouped so_far.old [] (map view values.now)) }
{
    let Ok(room) = Vec::with_capacity(alloc, values.len()) else {
        return Err(NoMemory);
    };
    let mut items = List::from_vec(room);
    for value in values {
        // (handed to `drop`, they are given back by one call)
        match item_in(alloc, value) {
            Err(NoMemory) => {
                drop(items);
                return Err(NoMemory);
            }
            Ok(spelled) => match judged(all, step, grouped, so_far, spelled) {
                Err(fault) => {
                    drop(items);
                    return Ok(Err(fault));
                }
                Ok(item) => {
                    if add_item(alloc, all, so_far, &mut items, item).is_err() {
                        drop(items);
                        return Err(NoMemory);
                    }
                }
            },
        }
    }
    Ok(Ok(items))
}

fn step(
    alloc: Global,
    all: SiteSet,
    step: u32,
    so_far: &mut SoFar,
    value: &Value,
) -> Result<Read<List<Item>>, NoMemory>
    ensures { IfOk result (λ read. with_so_far so_far.new read ≡ step_read all step so_far.old (view value.now)) }
{
    match values(value) {
        Some(values) => items(alloc, all, step, true, so_far, values),
        None => items(alloc, all, step, false, so_far, slice::from_ref(value)),
    }
}

/// The steps, each behind those before it.
#[tactic(auto, using(crate::proofs::Values::next_value))]
pub fn steps(
    alloc: Global,
    all: SiteSet,
    so_far: &mut SoFar,
    values: &[Value],
) -> Result<Read<List<List<Item>>>, NoMemory>
    requires { length values.now ≤ 10000 }
    ensures { IfOk result (λ read. read ≡ steps_read all 1 so_far.old [] (map view values.now)) }
{
    let mut steps = List::new(alloc);
    let mut number = 1;
    for value in values {
        match step(alloc, all, number, so_far, value)? {
            Err(first) => return Ok(Err(first)),
            Ok(items) => {
                so_far.close(alloc)?;
                steps.push(items)?;
            }
        }
        number += 1;
    }
    Ok(Ok(steps))
}
