// The part of a report that tells of the start and of the steps.
ghost use Rattle.std.specs.Prelude.{◌≡◌, [], OnOk};
ghost use Rattle.e3_world.specs.Packets.{is_line};
ghost use Rattle.e3_report.specs.Pages.{Adds};
ghost use Rattle.e3_report.specs.Names.{meant};
ghost use Rattle.e3_report.specs.Ups.{up_in};
ghost use Rattle.e3_report.specs.Steps.{until_line, site_events, event_lines, start_lines, step_heading, step_lines, lines_by, steps_after};

use crate::Page;
use crate::known::Known;
use crate::lines::push_entry;
use crate::skips::push_skips;
use crate::ups::enter_up;
use e3_readings::{is_line, step_items};
use e3_types::{Act, Entry, NoMemory, Scenario};
use std::alloc::Global;

/// The entries up to the next line.
fn until_line(entries: &[Entry]) -> &[Entry]
    ensures { result.now ≡ until_line entries.now }
{
    for at in 0..entries.len() {
        if is_line(&entries[at]) {
            return &entries[..at];
        }
    }
    entries
}

/// Adds the events of one site.
fn push_site_events(page: &mut Page, site: u64, entries: &[Entry])
    ensures { Adds page.old page.new (site_events entries.now site) }
{
    for e in entries {
        if e.owner as u64 == site {
            push_entry(page, e);
        }
    }
}

/// Adds the events of all sites, site by site.
#[tactic(auto, unfolding(crate::specs::Steps::event_lines), using(crate::proofs::OneSiteMore::one_site_more))]
fn push_events(page: &mut Page, scenario: &Scenario, entries: &[Entry])
    ensures { Adds page.old page.new (event_lines scenario.now entries.now) }
{
    let sites = scenario.weights.len();
    for before in 0..sites {
        push_site_events(page, before + 1, entries);
    }
}

/// Adds the start and what happens before the first step.
#[tactic(auto, unfolding(crate::specs::Steps::start_lines))]
pub(crate) fn push_start(page: &mut Page, scenario: &Scenario, history: &[Entry])
    ensures { Adds page.old page.new (start_lines scenario.now history.now) }
{
    page.line("start");
    push_events(page, scenario, until_line(history));
}

#[tactic(auto, unfolding(crate::specs::Steps::step_heading))]
fn push_step_heading(page: &mut Page, number: u32)
    ensures { Adds page.old page.new (step_heading number) }
{
    page.labelled("step ", number as u64);
    page.line_end();
}

/// Adds a step, where this is known at its line.
#[tactic(auto, unfolding(crate::specs::Steps::step_lines))]
fn push_step(
    alloc: Global,
    page: &mut Page,
    scenario: &Scenario,
    known: &Known,
    number: u32,
    during: &[Entry],
) -> Result<(), NoMemory>
    ensures { OnOk result (Adds page.old page.new (step_lines (meant known.now.names) (up_in known.now.ups.keys) scenario.now number during.now)) }
{
    let items = step_items(scenario, u64::from(number));
    push_step_heading(page, number);
    page.items(items);
    push_skips(alloc, page, known, during, items)?;
    push_events(page, scenario, during);
    Ok(())
}

/// Adds the step that an entry begins, if it is a line.
fn push_by_line(
    alloc: Global,
    page: &mut Page,
    scenario: &Scenario,
    known: &Known,
    act: &Act,
    rest: &[Entry],
) -> Result<(), NoMemory>
    ensures { OnOk result (Adds page.old page.new (lines_by (meant known.now.names) (up_in known.now.ups.keys) scenario.now act.now rest.now)) }
{
    match act {
        Act::Line { number } => push_step(alloc, page, scenario, known, *number, until_line(rest)),
        _ => Ok(()),
    }
}

/// Adds all steps.
pub(crate) fn push_steps(
    alloc: Global,
    page: &mut Page,
    scenario: &Scenario,
    history: &[Entry],
) -> Result<(), NoMemory>
    ensures { OnOk result (Adds page.old page.new (steps_after scenario.now [] history.now)) }
{
    let mut known = Known::new(alloc);
    for at in 0..history.len() {
        let entry = &history[at];
        known.names.enter(alloc, scenario, entry)?;
        enter_up(&mut known.ups, entry)?;
        push_by_line(
            alloc,
            page,
            scenario,
            &known,
            &entry.act,
            &history[at + 1..],
        )?;
    }
    Ok(())
}
