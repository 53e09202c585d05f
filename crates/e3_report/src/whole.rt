// The whole report.
ghost use Rattle.std.specs.Prelude.{◌≡◌, IfOk, OnOk};
ghost use Rattle.std.specs.List.{flat_map};
ghost use Rattle.e3_world.specs.Packets.{all_sites};
ghost use Rattle.e3_report.specs.Pages.{Adds};
ghost use Rattle.e3_report.specs.Report.{report_without_trace, trace_lines, report_of};
ghost use Rattle.e3_report.specs.Walk.{site_by, report_by};

use crate::Page;
use crate::logs::{log_in, walk_of};
use crate::orders::push_order;
use crate::sites::{present_inc, push_log, push_site_heading};
use crate::steps::{push_start, push_steps};
use e3_readings::SiteRecord;
use e3_types::{Entry, List, NoMemory, Scenario};
use e3_world::History;
use std::alloc::Global;

/// What a report is read off: the scenario, the history, and the records of all logs in it.
#[derive(Clone, Copy)]
struct Reported<'a> {
    alloc: Global,
    scenario: &'a Scenario,
    history: &'a [Entry],
    placed: &'a [SiteRecord],
}

impl Reported<'_> {
    /// Adds how a site stands.
    #[tactic(auto, unfolding(crate::specs::Walk::site_by))]
    fn push_site(&self, page: &mut Page, site: u64) -> Result<(), NoMemory>
        ensures { OnOk result (Adds page.old page.new (site_by self.now.history.now self.now.placed.now site)) }
    {
        push_site_heading(page, site, present_inc(site, self.history));
        let log = log_in(self.alloc, site, self.placed)?;
        push_log(self.alloc, page, log.as_slice())
    }

    /// Adds how each site stands, in ascending order.
    #[tactic(auto, using(crate::proofs::OneSiteMore::one_site_more))]
    fn push_all_sites(&self, page: &mut Page) -> Result<(), NoMemory>
        ensures { OnOk result (Adds page.old page.new (flat_map (site_by self.now.history.now self.now.placed.now) (all_sites self.now.scenario.now))) }
    {
        let sites = self.scenario.weights.len();
        for before in 0..sites {
            self.push_site(page, before + 1)?;
        }
        Ok(())
    }

    /// Adds the report.
    #[tactic(auto, unfolding(crate::specs::Walk::report_by))]
    fn push_report(&self, page: &mut Page) -> Result<(), NoMemory>
        ensures { OnOk result (Adds page.old page.new (report_by self.now.scenario.now self.now.history.now self.now.placed.now)) }
    {
        push_start(page, self.scenario, self.history);
        push_steps(self.alloc, page, self.scenario, self.history)?;
        push_order(self.alloc, page, self.placed)?;
        self.push_all_sites(page)?;
        page.line("end");
        Ok(())
    }
}

/// Adds the report without a trace.
fn push_report_alone(
    alloc: Global,
    page: &mut Page,
    scenario: &Scenario,
    history: &[Entry],
) -> Result<(), NoMemory>
    ensures { OnOk result (Adds page.old page.new (report_without_trace scenario.now history.now)) }
{
    let walk = walk_of(alloc, scenario, history)?;
    let reported = Reported {
        alloc,
        scenario,
        history,
        placed: walk.placed(),
    };
    reported.push_report(page)
}

/// Adds the trace, where it is asked for.
#[tactic(auto, unfolding(crate::specs::Report::trace_lines))]
fn push_trace_lines(page: &mut Page, history: &[Entry], trace: bool)
    ensures { Adds page.old page.new (trace_lines history.now trace) }
{
    if trace {
        page.trace(history);
        page.line("end");
    }
}

/// The report of a scenario and a history: the start and the first rises; each step with its items and what happened in
/// it; the committed transactions; and for each site whether it is up, its log and its rows. With the trace the history
/// stands behind it, entry by entry. Each line ends with a line feed. The history need not be legal. Want of memory is
/// the only error.
pub fn report(
    alloc: Global,
    scenario: &Scenario,
    history: &History,
    trace: bool,
) -> Result<List<u8>, NoMemory>
    ensures { IfOk result (λ text. text ≡ report_of scenario.now history.now.entries trace) }
{
    let mut page = Page::new(alloc);
    push_report_alone(alloc, &mut page, scenario, history.as_slice())?;
    push_trace_lines(&mut page, history.as_slice(), trace);
    page.done()
}
