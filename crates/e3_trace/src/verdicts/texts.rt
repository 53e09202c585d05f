// The text of a verdict.
ghost use Rattle.std.specs.Prelude.{◌≡◌, IfOk};
ghost use Rattle.e3_report.specs.Pages.{Adds};
ghost use Rattle.e3_scenario.specs.Faults.{fault_text};
ghost use Rattle.e3_trace.specs.verdicts.Findings.{finding_text, illegal_text, legal_text, trace_text, whole_text};

use crate::TraceFault;
use crate::verdicts::checking::Finding;
use e3_judge::Breach;
use e3_report::Page;
use e3_scenario::{ScenarioFault, fault_line};
use e3_types::{List, NoMemory};
use std::alloc::Global;

fn whole_text(whole: bool) -> &'static str
    ensures { result.now ≡ whole_text whole }
{
    if whole { " whole" } else { "" }
}

#[tactic(auto, unfolding(crate::specs::verdicts::Findings::legal_text, e3_report::specs::lines::Texts::line_end))]
fn push_legal(page: &mut Page, count: u64, whole: bool)
    ensures { Adds page.old page.new (legal_text count whole) }
{
    page.labelled("legal ", count);
    page.line(whole_text(whole));
}

#[tactic(auto, unfolding(crate::specs::verdicts::Findings::illegal_text, e3_report::specs::lines::Texts::line_end))]
fn push_illegal(page: &mut Page, breach: Breach)
    ensures { Adds page.old page.new (illegal_text breach) }
{
    page.labelled("illegal ", breach.at);
    page.text(" ");
    page.line(breach.guard.word());
}

#[tactic(auto, unfolding(crate::specs::verdicts::Findings::trace_text))]
fn push_trace_fault(page: &mut Page, fault: TraceFault)
    ensures { Adds page.old page.new (trace_text fault) }
{
    match fault {
        TraceFault::Line { at } => {
            page.labelled("refused trace ", at);
            page.text("\n");
        }
        TraceFault::TooLong => page.text("refused trace too-long\n"),
        TraceFault::NoMemory => page.text("refused trace no-memory\n"),
    }
}

fn push_scenario_fault(alloc: Global, page: &mut Page, fault: &ScenarioFault)
    ensures { Adds page.old page.new (fault_text fault.now) }
{
    match fault_line(alloc, fault) {
        Ok(line) => page.bytes(line.as_slice()),
        Err(NoMemory) => page.lack(),
    }
}

fn push_finding(alloc: Global, page: &mut Page, finding: Finding)
    ensures { Adds page.old page.new (finding_text finding) }
{
    match finding {
        Finding::Legal { count, whole } => push_legal(page, count, whole),
        Finding::Illegal { breach } => push_illegal(page, breach),
        Finding::NoScenario { fault } => push_scenario_fault(alloc, page, &fault),
        Finding::NoTrace { fault } => push_trace_fault(page, fault),
    }
}

/// The line that is written for a finding.
pub(crate) fn finding_text(alloc: Global, finding: Finding) -> Result<List<u8>, NoMemory>
    ensures { IfOk result (λ text. text ≡ finding_text finding) }
{
    let mut page = Page::new(alloc);
    push_finding(alloc, &mut page, finding);
    page.done()
}
