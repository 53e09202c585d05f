// The steps of a scenario, and the lines that begin them in a history.
ghost use Rattle.std.specs.Prelude.{◌≡◌, ◌≤◌, IfOk, length};
ghost use Rattle.e3_world.specs.Legal.{parts_due};
ghost use Rattle.e3_world.specs.Packets.{is_line, step_items};

use e3_types::{Act, Copied, Entry, Item, List, NoMemory, Scenario, SiteSet};
use e3_world::all_sites;
use std::alloc::Global;

/// The items of the step with this number, counted from 1; none where there is no such step.
#[tactic(auto, using(crate::proofs::StepItems::items_from))]
pub fn step_items(scenario: &Scenario, number: u64) -> &[Item]
    ensures { result.now ≡ step_items scenario.now number }
{
    if number == 0 {
        return &[];
    }
    match scenario.steps.as_slice().get(number as usize - 1) {
        Some(items) => items.as_slice(),
        None => &[],
    }
}

/// The entry is a line.
pub fn is_line(entry: &Entry) -> bool
    ensures { result ≡ is_line entry.now }
{
    matches!(entry.act, Act::Line { .. })
}

/// The parts of the network that a split or a merge asks for, which begins a step. Want of memory is the only error. The
/// scenario has 64 sites at most, so that a set names those of a merge.
pub fn parts_due(
    alloc: Global,
    scenario: &Scenario,
    items: &[Item],
) -> Result<Option<List<SiteSet>>, NoMemory>
    requires { length scenario.now.weights ≤ 64 }
    ensures { IfOk result (λ due. due ≡ parts_due scenario.now items.now) }
{
    match items {
        [Item::Split { parts }, ..] => Ok(Some(parts.copied(alloc)?)),
        [Item::Merge, ..] => {
            let mut parts = List::new(alloc);
            parts.push(all_sites(scenario))?;
            Ok(Some(parts))
        }
        _ => Ok(None),
    }
}
