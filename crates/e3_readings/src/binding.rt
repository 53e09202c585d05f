// Which names the begins of a history bind.
ghost use Rattle.std.specs.Prelude.{◌≡◌, fold, IfOk};
ghost use Rattle.e3_readings.specs.Bindings.{nothing_bound};
ghost use Rattle.e3_world.specs.Items.{begin_names, binding_by};

use crate::bound_names::BoundNames;
use crate::steps::step_items;
use e3_types::{Act, Entry, Input, Item, List, Name, NoMemory, Scenario};
use std::alloc::Global;

// The names of the begin items of a step that go to this site.
fn begin_names(alloc: Global, site: u32, items: &[Item]) -> Result<List<Name>, NoMemory>
    ensures { IfOk result (λ names. names ≡ begin_names site items.now) }
{
    let mut names = List::new(alloc);
    for item in items {
        match item {
            Item::Begin { name, site: s, .. } if *s == site => names.push(name.copy())?,
            _ => {}
        }
    }
    Ok(names)
}

// What is bound behind one more entry.
fn bind_one(
    alloc: Global,
    scenario: &Scenario,
    entry: &Entry,
    was: &mut BoundNames,
) -> Result<(), NoMemory>
    ensures { IfOk result (λ u. was.new ≡ binding_by scenario.now was.old entry.now) }
{
    match &entry.act {
        Act::Line { number } => {
            was.begin_step(alloc, *number);
            Ok(())
        }
        Act::Step {
            input: Input::Begin { .. },
            told,
            ..
        } => {
            let items = step_items(scenario, was.number() as u64);
            let names = begin_names(alloc, entry.owner, items)?;
            let turn = was.begins(entry.owner);
            was.add(names.as_slice().get(turn), told.as_slice())?;
            was.begin_at(entry.owner)
        }
        _ => Ok(()),
    }
}

/// Before the first entry.
pub fn nothing_bound(alloc: Global) -> BoundNames
    ensures { result ≡ nothing_bound }
{
    BoundNames::none(alloc)
}

/// The binding behind these further entries. With an error it may be anything.
pub fn bind(
    alloc: Global,
    scenario: &Scenario,
    entries: &[Entry],
    binding: &mut BoundNames,
) -> Result<(), NoMemory>
    ensures { IfOk result (λ u. binding.new ≡ fold (binding_by scenario.now) binding.old entries.now) }
{
    for entry in entries {
        bind_one(alloc, scenario, entry, binding)?;
    }
    Ok(())
}
