// The judge over tables.
ghost use Rattle.std.specs.Prelude.{◌≡◌, ◌↔◌, true, IfOk, IsTrue};
ghost use Rattle.e3_judge.specs.Checks.{is_whole};
ghost use Rattle.e3_judge.specs.Claims.{IsJudged};
ghost use Rattle.e3_world.specs.Legal.{IsWhole, is_through};

use crate::audit::walking::{Walked, walk};
use crate::{Breach, Prefix, judge_behind, lines};
use e3_types::{Entry, NoMemory, Scenario};
use e3_world::History;
use std::alloc::Global;

/// What is found of a history: its first breach, none where it is legal; and whether it is whole.
#[derive(Clone, Copy)]
pub struct Audited {
    pub breach: Option<Breach>,
    pub whole: bool,
}

// All before the next line is through, as the walk saw, or as it is read anew.
fn is_seen_through(
    alloc: Global,
    scenario: &Scenario,
    history: &[Entry],
    walked: Walked,
) -> Result<bool, NoMemory>
    requires { walked.through ≡ true → is_through scenario.now history.now ≡ true }
    ensures { IfOk result (λ b. b ≡ is_through scenario.now history.now) }
{
    if walked.through {
        return Ok(true);
    }
    let all = Prefix::of(alloc, scenario, history);
    all.is_through()
}

/// The first entry of a history that breaks the rules, with the first of its guards that fails, none where the history is
/// legal; and whether it is whole, which is legal and went through the whole scenario. A walk with a value for each site and
/// the network passes over entries that it sees to be legal, in about the time of the run that made them. From the first on
/// that it does not so see, `judge_behind` goes on with the plain readings. Want of memory is the only error.
pub fn audit(alloc: Global, scenario: &Scenario, history: &History) -> Result<Audited, NoMemory>
    ensures judged { IfOk result (λ a. IsJudged scenario.now history.now.entries a.breach) }
    ensures is_whole { IfOk result (λ a. a.whole ≡ is_whole scenario.now history.now.entries) }
    ensures whole { IfOk result (λ a. IsTrue a.whole ↔ IsWhole scenario.now history.now.entries) }
{
    let entries = history.as_slice();
    let walked = walk(alloc, scenario, entries)?;
    let breach = judge_behind(alloc, scenario, history, walked.passed)?;
    let mut whole = false;
    if breach.is_none() && lines(entries) == scenario.steps.len() {
        whole = is_seen_through(alloc, scenario, entries, walked)?;
    }
    Ok(Audited { breach, whole })
}
