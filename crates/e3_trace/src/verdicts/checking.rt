// The verdict on bytes.
ghost use Rattle.std.specs.Prelude.{◌≡◌, [], Ok, IfOk};
ghost use Rattle.e3_trace.specs.verdicts.Claims.{IsVerdict, LegalTracesPass};
ghost use Rattle.e3_trace.specs.verdicts.Findings.{by_trace, finding_text, found_in, history_for, status_of};
ghost use Rattle.e3_trace.specs.Trace.{history_of};

use crate::verdicts::texts::finding_text;
use crate::verdicts::traces::legal_traces_read_back;
use crate::{TraceFault, before_mark, read_trace};
use e3_judge::audit::{Audited, audit};
use e3_judge::{Breach, checks_are_exact};
use e3_laws::agreement::histories_agree;
use e3_laws::serial::one_order;
use e3_scenario::{ScenarioFault, read_scenario};
use e3_types::{List, NoMemory, Scenario};
use e3_world::History;
use std::alloc::Global;

/// What is found in bytes that are to have a scenario and a trace.
#[derive(Clone, Copy)]
pub enum Finding {
    /// The history is legal: how many entries it has, and whether it went through the whole scenario.
    Legal { count: u64, whole: bool },
    /// The history breaks the rules.
    Illegal { breach: Breach },
    /// What stands before the trace is no scenario.
    NoScenario { fault: ScenarioFault },
    /// There is no trace, or it is at fault, or the bytes are too many.
    NoTrace { fault: TraceFault },
}

impl Finding {
    /// 0 for a legal history, 2 where there is no scenario, 8 for a history that is not legal, 9 where there is no trace.
    fn status(self) -> u8
        ensures { result ≡ status_of self }
    {
        match self {
            Finding::Legal { .. } => 0,
            Finding::NoScenario { .. } => 2,
            Finding::Illegal { .. } => 8,
            Finding::NoTrace { .. } => 9,
        }
    }
}

/// A verdict: its status, the line that tells it, and the history that it speaks of, which is empty where there is no
/// scenario or no trace.
#[derive(Drop)]
pub struct Checked {
    pub status: u8,
    pub text: List<u8>,
    pub history: History,
}

// A finding, and the history that it speaks of.
#[derive(Drop)]
struct Found {
    finding: Finding,
    history: History,
}

fn nothing(alloc: Global, finding: Finding) -> Found
    ensures { (result.finding ≡ finding) × (result.history.entries ≡ []) }
{
    Found {
        finding,
        history: History::new(alloc),
    }
}

// What the judge finds.
fn judged(alloc: Global, scenario: &Scenario, history: &History) -> Result<Finding, NoMemory>
    ensures { IfOk result (λ f. f ≡ by_trace scenario.now (Ok history.now.entries)) }
{
    let Audited { breach, whole } = audit(alloc, scenario, history)?;
    match breach {
        Some(breach) => Ok(Finding::Illegal { breach }),
        None => Ok(Finding::Legal {
            count: history.len(),
            whole,
        }),
    }
}

// What is found where the scenario is read.
fn found_behind(alloc: Global, scenario: &Scenario, bytes: &[u8]) -> Result<Found, NoMemory>
    ensures finding { IfOk result (λ f. f.finding ≡ by_trace scenario.now (history_of bytes.now)) }
    ensures history { IfOk result (λ f. f.history.entries ≡ history_for f.finding bytes.now) }
{
    match read_trace(alloc, scenario, bytes) {
        Err(TraceFault::NoMemory) => Err(NoMemory),
        Err(fault) => Ok(nothing(alloc, Finding::NoTrace { fault })),
        Ok(history) => {
            let finding = judged(alloc, scenario, &history)?;
            Ok(Found { finding, history })
        }
    }
}

fn look(alloc: Global, bytes: &[u8]) -> Result<Found, NoMemory>
    ensures finding { IfOk result (λ f. f.finding ≡ found_in bytes.now) }
    ensures history { IfOk result (λ f. f.history.entries ≡ history_for f.finding bytes.now) }
{
    if bytes.len() > 268435456 {
        return Ok(nothing(
            alloc,
            Finding::NoTrace {
                fault: TraceFault::TooLong,
            },
        ));
    }
    match read_scenario(alloc, before_mark(bytes)) {
        Err(ScenarioFault::NoMemory) => Err(NoMemory),
        Err(fault) => Ok(nothing(alloc, Finding::NoScenario { fault })),
        Ok(scenario) => found_behind(alloc, &scenario, bytes),
    }
}

/// The verdict on bytes that are to have a scenario, a line `#trace`, and the trace of a history with its closing `end`. The
/// first such line counts. That there are more than 268,435,456 bytes is told first, then the scenario's own fault, then that
/// of the trace; then the judge has the word. Where the verdict is 0 the history is safe, whoever printed it. The caller
/// passes all bytes that there are, or one more than there may be. Want of memory is the only error.
pub fn check(alloc: Global, bytes: &[u8]) -> Result<Checked, NoMemory>
    ensures exact { IfOk result (λ c. (c.status ≡ status_of (found_in bytes.now)) × (c.text ≡ finding_text (found_in bytes.now))
        × (c.history.entries ≡ history_for (found_in bytes.now) bytes.now)) }
    ensures verdict { IfOk result (λ c. IsVerdict bytes.now c.status c.history.entries c.text) }
{
    checks_are_exact();
    histories_agree();
    one_order();
    let Found { finding, history } = look(alloc, bytes)?;
    let text = finding_text(alloc, finding)?;
    Ok(Checked {
        status: finding.status(),
        text,
        history,
    })
}

/// Each legal history passes, where it is printed behind the lines of its scenario: the verdict is 0. Texts that are too long
/// are excepted.
pub fn legal_traces_pass()
    ensures { LegalTracesPass }
{
    checks_are_exact();
    histories_agree();
    one_order();
    legal_traces_read_back();
}
