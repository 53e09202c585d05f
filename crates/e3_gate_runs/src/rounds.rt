// Runs worked scenarios over disks in memory and prints each of their recovery rounds: how many entries of its own it took,
// beside its bound, and the verdict that its elector told; and what `recover` itself reports in the first recovery of each.
// All sites work on one thread: where two of them elect at once, what a round takes hangs on the order.

ghost use Rattle.e3_world.specs.Given.{IsGiven};

mod recoveries;
mod reports;
mod rows;
mod verdicts;

use crate::playing::history_of;
use e3_report::Page;
use e3_scenario::read_scenario;
use e3_types::Scenario;
use std::alloc::Global;
use std::sync::Wait;
use std::thread::Threads;

// Adds the rounds of a scenario, and what is reported of the first recovery.
fn push_scenario<R: Wait + Threads + Sync>(
    rt: &R,
    alloc: Global,
    page: &mut Page,
    scenario: &Scenario,
)
    requires { IsGiven scenario.now }
{
    match history_of(rt, alloc, scenario) {
        Some(history) => recoveries::push_rounds(page, scenario, history.as_slice()),
        None => page.lack(),
    }
    reports::push_reports(rt, alloc, page, scenario);
}

// Adds the line of a worked scenario.
fn push_row<R: Wait + Threads + Sync>(
    rt: &R,
    alloc: Global,
    page: &mut Page,
    name: &str,
    text: &str,
) {
    page.text(name);
    match read_scenario(alloc, text.as_bytes()) {
        Ok(scenario) => push_scenario(rt, alloc, page, &scenario),
        Err(_) => page.lack(),
    }
    page.text("\n");
}

/// Adds all lines.
pub fn push_lines<R: Wait + Threads + Sync>(rt: &R, alloc: Global, page: &mut Page) {
    page.text("== rounds\n");
    for (name, text) in rows::ROWS {
        push_row(rt, alloc, page, name, text);
    }
}
