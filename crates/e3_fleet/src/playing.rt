// A scenario, step by step.
ghost use Rattle.std.specs.Prelude.{◌≡◌, ◌≤◌, [], suc, length, OnOk, Err};
ghost use Rattle.e3_fleet.specs.Settling.{Since, Stands, history_in, most_in, scenario_in};
ghost use Rattle.e3_fleet.specs.declared.fleet.Fleet.{Fleet as Fleets};
ghost use Rattle.e3_play.specs.GoingOn.{SitesGoOn};
ghost use Rattle.e3_play.specs.Known.{KnowsNames};
ghost use Rattle.e3_play.specs.Played.{IsSettled};
ghost use Rattle.e3_play.specs.Delivered.{IsFull};
ghost use Rattle.e3_play.specs.declared.sites.RunFault.TheVariants.{HistoryFull};
ghost use Rattle.e3_world.specs.Given.{IsGiven};
ghost use Rattle.e3_world.specs.Legal.{IsWhole};

use crate::fleet::Fleet;
use crate::pace::Pace;
use crate::settling::settle_fleet;
use e3_disk::{Disk, Drill};
use e3_outside::Gate;
use e3_play::{Names, RunFault, begin_step, rise_all};
use e3_types::Scenario;
use std::sync::Wait;
use std::thread::Threads;

// The step of the next number: what the driver does of it, and then what the sites do.
fn play_step<D: Disk + Drill + Drop + Send, G: Gate + Sync, R: Wait + Threads + Sync>(
    rt: &R,
    scenario: &Scenario,
    pace: &Pace<G>,
    done: u32,
    fleet: &mut Fleet<D>,
    names: &mut Names,
) -> Result<(), RunFault>
    requires played { scenario_in fleet.old ≡ scenario.now }
    requires standing { Stands D.meaning fleet.old }
    requires given { IsGiven scenario.now }
    requires most { most_in fleet.old ≤ 2000000 }
    requires more { suc done ≤ length scenario.now.steps }
    requires settled { IsSettled scenario.now (history_in fleet.old) done }
    requires known { KnowsNames scenario.now (history_in fleet.old) names.old }
    ensures on { SitesGoOn (Stands D.meaning) (Since D.meaning.meters) scenario_in most_in fleet.old fleet.new }
    ensures known { OnOk result (KnowsNames scenario.now (history_in fleet.new) names.new) }
    ensures settles { OnOk result (IsSettled scenario.now (history_in fleet.new) (suc done)) }
    ensures full { result ≡ Err HistoryFull → IsFull scenario.now (history_in fleet.new) (most_in fleet.old) }
{
    let alloc = fleet.alloc;
    let asked = begin_step(alloc, scenario, fleet, names, done)?;
    match asked {
        Some(inputs) => settle_fleet(rt, pace.gate, pace.threads, pace.packets, fleet, inputs),
        None => Ok(()),
    }
}

/// Plays the first rises and the first so many steps of a scenario, each of which settles before the next. The history is
/// empty at first, and has 2,000,000 entries at most.
pub fn play_first<D: Disk + Drill + Drop + Send, G: Gate + Sync, R: Wait + Threads + Sync>(
    rt: &R,
    scenario: &Scenario,
    gate: &G,
    threads: usize,
    packets: u32,
    fleet: &mut Fleet<D>,
    count: u32,
) -> Result<(), RunFault>
    requires played { scenario_in fleet.old ≡ scenario.now }
    requires standing { Stands D.meaning fleet.old }
    requires given { IsGiven scenario.now }
    requires most { most_in fleet.old ≤ 2000000 }
    requires within { count ≤ length scenario.now.steps }
    requires empty { history_in fleet.old ≡ [] }
    ensures on { SitesGoOn (Stands D.meaning) (Since D.meaning.meters) scenario_in most_in fleet.old fleet.new }
    ensures settled { OnOk result (IsSettled scenario.now (history_in fleet.new) count) }
    ensures full { result ≡ Err HistoryFull → IsFull scenario.now (history_in fleet.new) (most_in fleet.old) }
{
    let pace = Pace {
        gate,
        threads,
        packets,
    };
    rise_all(fleet, scenario.weights.len() as u32)?;
    let mut names = Names::new(fleet.alloc);
    for done in 0..count {
        play_step(rt, scenario, &pace, done, fleet, &mut names)?;
    }
    Ok(())
}

/// Plays a scenario from its first rises to its end. A history has a line for each step, so it is full long before the last of
/// so many steps that 32 bits do not count them.
pub(crate) fn play<D: Disk + Drill + Drop + Send, G: Gate + Sync, R: Wait + Threads + Sync>(
    rt: &R,
    scenario: &Scenario,
    pace: &Pace<G>,
    fleet: &mut Fleet<D>,
) -> Result<(), RunFault>
    requires played { scenario_in fleet.old ≡ scenario.now }
    requires standing { Stands D.meaning fleet.old }
    requires given { IsGiven scenario.now }
    requires most { most_in fleet.old ≤ 2000000 }
    requires empty { history_in fleet.old ≡ [] }
    ensures on { SitesGoOn (Stands D.meaning) (Since D.meaning.meters) scenario_in most_in fleet.old fleet.new }
    ensures whole { OnOk result (IsWhole scenario.now (history_in fleet.new)) }
    ensures full { result ≡ Err HistoryFull → IsFull scenario.now (history_in fleet.new) (most_in fleet.old) }
{
    let steps = scenario.steps.len().min(u32::MAX as u64) as u32;
    play_first(
        rt,
        scenario,
        pace.gate,
        pace.threads,
        pace.packets,
        fleet,
        steps,
    )
}
