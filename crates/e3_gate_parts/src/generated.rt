// Generated scenarios: the text of each of the thousand numbers is read as the scenario that its drill plays.

ghost use Rattle.std.specs.Prelude.{◌≤◌};

mod same;

use e3_gen::{generated, generated_scenario};
use e3_report::Page;
use e3_scenario::{ScenarioFault, read_scenario};
use e3_types::{NoMemory, Scenario};
use same::is_same_scenario;
use std::alloc::Global;

const LAST: u32 = 1000;

// Whether the text of this number spells this scenario.
fn is_spelled(alloc: Global, n: u32, played: &Scenario) -> Result<bool, NoMemory>
    requires least { 1 ≤ n }
    requires most { n ≤ 1000 }
{
    let text = generated(alloc, n)?;
    match read_scenario(alloc, text.as_slice()) {
        Ok(scenario) => {
            let is_same = is_same_scenario(alloc, &scenario, played);
            drop(scenario);
            is_same
        }
        Err(ScenarioFault::NoMemory) => Err(NoMemory),
        Err(_) => Ok(false),
    }
}

// Whether the text of this number is read as its scenario.
fn is_read_as_played(alloc: Global, n: u32) -> Result<bool, NoMemory> {
    if n == 0 || n > 1000 {
        return Ok(false);
    }
    match generated_scenario(alloc, n) {
        Ok(played) => {
            let is_spelled = is_spelled(alloc, n, &played);
            drop(played);
            is_spelled
        }
        Err(NoMemory) => Err(NoMemory),
    }
}

/// Adds how many numbers up to the last have such a text, and a line for each that has not.
pub fn push_lines(alloc: Global, page: &mut Page) {
    page.text("== generated\n");
    let mut count: u64 = 0;
    for n in 1..=LAST {
        match is_read_as_played(alloc, n) {
            Ok(true) => count = count.saturating_add(1),
            Ok(false) => {
                page.labelled("not read as it is played: ", u64::from(n));
                page.text("\n");
            }
            Err(NoMemory) => page.lack(),
        }
    }
    page.labelled("read as they are played: ", count);
    page.text("\n");
}
