// What `recover` itself reports: a scenario is played to its first recovery step, over sites of its own.
ghost use Rattle.std.specs.Prelude.{◌≡◌, ◌≤◌, ◌<◌, ◌^◌, [], suc, length};
ghost use Rattle.e3_fleet.specs.Settling.{Stands, history_in, most_in, scenario_in};
ghost use Rattle.e3_world.specs.Given.{IsGiven};

use crate::playing::{CAPACITY, MOST, PACKETS, THREADS};
use crate::rounds::verdicts::push_verdict_or_none;
use e3_disk::{Disk, MemDisk};
use e3_fleet::{Fleet, memory_disks, play_first};
use e3_outside::OpenGate;
use e3_play::{RoundReport, begin_recovery, recover};
use e3_report::Page;
use e3_types::{Item, List, Scenario};
use std::alloc::Global;
use std::sync::Wait;
use std::thread::Threads;

// How many steps stand before the first recovery.
fn before_recovery(scenario: &Scenario) -> Option<u32> {
    for (at, items) in scenario.steps.as_slice().iter().enumerate() {
        if matches!(items.as_slice(), [Item::Recover { .. }]) {
            return u32::try_from(at).ok();
        }
    }
    None
}

// The reports of the recovery behind so many steps, which a fleet plays; none without memory, or where the next step is no
// recovery.
fn reports_of<R: Wait + Threads + Sync>(
    rt: &R,
    alloc: Global,
    scenario: &Scenario,
    fleet: &mut Fleet<MemDisk>,
    done: u32,
) -> Option<List<RoundReport>>
    requires played { scenario_in fleet.old ≡ scenario.now }
    requires standing { Stands ⟦<MemDisk as Disk>⟧.meaning fleet.old }
    requires given { IsGiven scenario.now }
    requires most { most_in fleet.old ≤ 2000000 }
    requires few { length scenario.now.steps < 2 ^ 32 }
    requires more { suc done ≤ length scenario.now.steps }
    requires empty { history_in fleet.old ≡ [] }
{
    let Ok(()) = play_first(rt, scenario, &OpenGate, THREADS, PACKETS, fleet, done) else {
        return None;
    };
    let Ok(Some(group)) = begin_recovery(scenario, fleet, done) else {
        return None;
    };
    recover(alloc, fleet, group).ok()
}

// The same over disks in memory.
fn reports<R: Wait + Threads + Sync>(
    rt: &R,
    alloc: Global,
    scenario: &Scenario,
    done: u32,
) -> Option<List<RoundReport>>
    requires given { IsGiven scenario.now }
    requires few { length scenario.now.steps < 2 ^ 32 }
    requires more { suc done ≤ length scenario.now.steps }
{
    let Ok(disks) = memory_disks(alloc, CAPACITY, 0, List::new(alloc)) else {
        return None;
    };
    let Ok(mut fleet) = Fleet::open(rt, alloc, scenario, disks, MOST) else {
        return None;
    };
    reports_of(rt, alloc, scenario, &mut fleet, done)
}

// The reports of the first recovery; none without memory, or where there is none.
fn first_reports<R: Wait + Threads + Sync>(
    rt: &R,
    alloc: Global,
    scenario: &Scenario,
) -> Option<List<RoundReport>>
    requires { IsGiven scenario.now }
{
    let done = before_recovery(scenario)?;
    let steps = u32::try_from(scenario.steps.len()).ok()?;
    if done < steps {
        reports(rt, alloc, scenario, done)
    } else {
        None
    }
}

fn push_report(page: &mut Page, report: &RoundReport) {
    page.text(", reported ");
    page.txn(&report.txn);
    page.text(" ");
    push_verdict_or_none(page, report.verdict);
}

/// Adds what `recover` reports in the first recovery step of a scenario.
pub fn push_reports<R: Wait + Threads + Sync>(
    rt: &R,
    alloc: Global,
    page: &mut Page,
    scenario: &Scenario,
)
    requires { IsGiven scenario.now }
{
    match first_reports(rt, alloc, scenario) {
        Some(reports) => {
            for report in reports.as_slice() {
                push_report(page, report);
            }
        }
        None => page.lack(),
    }
}
