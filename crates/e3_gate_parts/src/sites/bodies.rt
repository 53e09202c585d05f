// The steps of a site by its tables, beside those that the definitions make of its log and of its steps so far.
ghost use Rattle.std.specs.Prelude.{◌≡◌, ◌<◌, IfOk, OnOk, length};
ghost use Rattle.e3_site.specs.SiteView.{IsPlanOf, Stands, planned_step, risen_with};
ghost use Rattle.e3_world.specs.declared.lives.Incarnation.{Incarnation};

use crate::sites::logs::log_of;
use crate::texts::push_txn;
use e3_judge::{since_line, to_line};
use e3_readings::{life_of, open_in};
use e3_report::Page;
use e3_site::{Plan, RebuildFault, Site, rebuild};
use e3_step::plain::step_of;
use e3_types::{Act, Entry, Input, List, NoMemory, Record, Scenario, Txn};
use e3_world::SiteStep;
use std::alloc::Global;
use std::slice;

// Adds the first text, and the second where it is another.
fn push_both(page: &mut Page, by_tables: &Page, by_past: &Page) {
    page.page(by_tables);
    if by_tables.as_slice() != by_past.as_slice() || !by_past.is_whole() {
        page.text("but by its past: ");
        page.page(by_past);
    }
}

// Adds the lines of an entry.
fn push_entry(lines: &mut Page, entry: Entry) {
    lines.trace(slice::from_ref(&entry));
    drop(entry);
}

// The lines of the step that the definitions make of an input.
fn lines_by_past(
    alloc: Global,
    weights: &[u32],
    owner: u32,
    rose: &[Record],
    since: &[SiteStep],
    input: &Input,
) -> Page
    requires { length since.now < 4294967295 }
{
    let mut lines = Page::new(alloc);
    match step_of(alloc, weights, owner, rose, since, input) {
        Ok(made) => {
            let act = Act::Step {
                input: input.copy(),
                records: made.records,
                outs: made.outs,
                told: made.told,
            };
            push_entry(&mut lines, Entry { owner, act });
        }
        Err(NoMemory) => lines.lack(),
    }
    lines
}

// The lines of the step of a plan.
fn lines_of(alloc: Global, plan: &Plan, owner: u32, input: &Input) -> Page {
    let mut lines = Page::new(alloc);
    match plan.entry(owner, input) {
        Ok(entry) => push_entry(&mut lines, entry),
        Err(NoMemory) => lines.lack(),
    }
    lines
}

// The transactions, each behind a space.
fn names_of(alloc: Global, txns: Result<List<Txn>, NoMemory>) -> Page {
    let mut names = Page::new(alloc);
    match txns {
        Ok(txns) => {
            for t in txns.as_slice() {
                push_txn(&mut names, t);
            }
        }
        Err(NoMemory) => names.lack(),
    }
    names
}

// The plan for an input. The log and the steps are passed on for the proof alone.
fn planned(
    site: &Site,
    _rose: &[Record],
    _since: &[SiteStep],
    input: &Input,
) -> Result<Plan, NoMemory>
    ghost now: { Incarnation }
    requires stands { Stands now site.now }
    requires few { length now.since < 4000000000 }
    ensures made { IfOk result (λ plan. plan.step ≡ planned_step now site.now input.now) }
    ensures of_site { IfOk result (λ plan. IsPlanOf plan site.now) }
{
    site.plan(input)
}

// The transactions that are open at a site by its past.
fn open_by_past(
    alloc: Global,
    site: u32,
    rose: &[Record],
    since: &[SiteStep],
) -> Result<List<Txn>, NoMemory> {
    let life = life_of(alloc, rose, since)?;
    let open = if life.steps.len() > 4294967295 {
        Err(NoMemory)
    } else {
        open_in(alloc, site, &life)
    };
    drop(life);
    open
}

// Adds the transactions that are open at a site by its tables, and those that are by its past, where they are others.
fn push_open(alloc: Global, page: &mut Page, site: &Site, rose: &[Record], since: &[SiteStep]) {
    page.text("open");
    let by_tables = names_of(alloc, site.open_txns());
    let by_past = names_of(alloc, open_by_past(alloc, site.site(), rose, since));
    push_both(page, &by_tables, &by_past);
    page.text("\n");
}

// Does the step of a plan, which is the site's last one then. The log and the input are passed on for the proof alone.
fn done(
    site: &mut Site,
    plan: Plan,
    _rose: &[Record],
    since: &mut List<SiteStep>,
    _input: &Input,
) -> Result<(), NoMemory>
    requires stand { Stands (record { rose = _rose.now; since = since.old }) site.old }
    requires made { plan.step ≡ planned_step (record { rose = _rose.now; since = since.old }) site.old _input.now }
    requires of_site { IsPlanOf plan site.old }
    ensures { OnOk result (Stands (record { rose = _rose.now; since = since.new }) site.new) }
{
    site.ready(&plan)?;
    since.push(site.apply(plan))
}

// Adds the step of an input by the site's tables, and these lines, by its past, where they are others; and does the step.
fn push_step(
    alloc: Global,
    page: &mut Page,
    by_past: &Page,
    site: &mut Site,
    rose: &[Record],
    since: &mut List<SiteStep>,
    input: &Input,
) -> Result<(), NoMemory>
    requires stand { Stands (record { rose = rose.now; since = since.old }) site.old }
    requires few { length since.old < 4000000000 }
    ensures { OnOk result (Stands (record { rose = rose.now; since = since.new }) site.new) }
{
    let plan = planned(site, rose, since.as_slice(), input)?;
    let by_tables = lines_of(alloc, &plan, site.site(), input);
    push_both(page, &by_tables, by_past);
    done(site, plan, rose, since, input)
}

// The input of a step of this site.
fn input_of(owner: u32, entry: &Entry) -> Option<&Input> {
    match &entry.act {
        Act::Step { input, .. } if entry.owner == owner => Some(input),
        _ => None,
    }
}

// Adds the steps of the inputs that the site has in a history, and what is open behind each.
fn push_steps(
    alloc: Global,
    page: &mut Page,
    weights: &[u32],
    site: &mut Site,
    rose: &[Record],
    history: &[Entry],
) -> Result<(), NoMemory>
    requires { Stands (risen_with rose.now) site.old }
{
    let owner = site.site();
    let mut since = List::new(alloc);
    for entry in history {
        if since.len() >= 4000000000 {
            return Err(NoMemory);
        }
        if let Some(input) = input_of(owner, entry) {
            let by_past = lines_by_past(alloc, weights, owner, rose, since.as_slice(), input);
            push_step(alloc, page, &by_past, site, rose, &mut since, input)?;
            push_open(alloc, page, site, rose, since.as_slice());
        }
    }
    Ok(())
}

// Adds the steps of the site that rises with a log.
fn push_risen(
    alloc: Global,
    page: &mut Page,
    weights: &[u32],
    site: u32,
    log: &[Record],
    history: &[Entry],
) {
    if log.is_empty() {
        return page.text(" no log");
    }
    page.text("\n");
    match rebuild(alloc, site, log) {
        Ok(mut site) => {
            if push_steps(alloc, page, weights, &mut site, log, history).is_err() {
                page.lack();
            }
            drop(site);
        }
        Err(RebuildFault::Order { .. }) => page.text(" out of order"),
        Err(RebuildFault::NoMemory) => page.lack(),
    }
}

/// Adds the steps that the site of a log makes of its inputs in a history, each by the site's tables, and by the definitions
/// where these make another; and what is open behind each. The log is that of the records up to the last line of the driver, the
/// inputs are those behind it.
pub fn push_bodies(
    alloc: Global,
    page: &mut Page,
    scenario: &Scenario,
    history: &[Entry],
    site: u32,
) {
    let Ok(log) = log_of(alloc, to_line(history)) else {
        return page.lack();
    };
    let weights = scenario.weights.as_slice();
    push_risen(
        alloc,
        page,
        weights,
        site,
        log.as_slice(),
        since_line(history),
    );
}
