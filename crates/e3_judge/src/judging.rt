// The judge: the first entry of a history that breaks the rules, and whether a history went through its scenario.
ghost use Rattle.std.specs.Prelude.{◌≡◌, ◌≤◌, ◌↔◌, IfOk, IsTrue, length, take, drop};
ghost use Rattle.e3_world.specs.Legal.{IsLegal, IsWhole};
ghost use Rattle.e3_judge.specs.Checks.{breach_after, first_breach, is_whole};
ghost use Rattle.e3_judge.specs.Claims.{IsJudged};

use crate::prefix::Prefix;
use crate::{Breach, lines};
use e3_types::{Entry, NoMemory, Scenario};
use e3_world::History;
use std::alloc::Global;

/// The first breach of a history, none where it is legal.
pub type Judged = Result<Option<Breach>, NoMemory>;

// The first of these entries from a place on that breaks the rules behind those before it.
fn breach_of(alloc: Global, scenario: &Scenario, history: &[Entry], from: usize) -> Judged
    requires { from ≤ length history.now }
    ensures { IfOk result (λ b. b ≡ breach_after scenario.now (take from history.now) (drop from history.now)) }
{
    for i in from..history.len() {
        let before = Prefix::of(alloc, scenario, &history[..i]);
        if let Some(guard) = before.entry_breach(&history[i])? {
            return Ok(Some(Breach {
                at: i as u64,
                guard,
            }));
        }
    }
    Ok(None)
}

// The first of these entries that breaks the rules, where those before a place break none.
fn breach_behind(alloc: Global, scenario: &Scenario, history: &[Entry], from: usize) -> Judged
    requires within { from ≤ length history.now }
    requires legal { IsLegal scenario.now (take from history.now) }
    ensures { IfOk result (λ b. b ≡ first_breach scenario.now history.now) }
{
    breach_of(alloc, scenario, history, from)
}

/// The first entry of a history that breaks the rules, and the first of its guards that fails; none where the history is
/// legal. Every reading is made anew for every entry, so this takes about the cube of the history's length. A faster body
/// may come under the same contract. Want of memory is the only error.
#[tactic(auto, using(crate::proofs::Breaches::judged))]
pub fn judge(alloc: Global, scenario: &Scenario, history: &History) -> Judged
    ensures { IfOk result (IsJudged scenario.now history.now.entries) }
{
    breach_of(alloc, scenario, history.as_slice(), 0)
}

/// The same where the entries before this place are known to be legal: they are read, and not judged anew.
#[tactic(auto, using(crate::proofs::Breaches::judged))]
pub fn judge_behind(alloc: Global, scenario: &Scenario, history: &History, from: usize) -> Judged
    requires within { from ≤ length history.now.entries }
    requires legal { IsLegal scenario.now (take from history.now.entries) }
    ensures { IfOk result (IsJudged scenario.now history.now.entries) }
{
    breach_behind(alloc, scenario, history.as_slice(), from)
}

// The entries are legal and went through the whole scenario.
fn are_whole(alloc: Global, scenario: &Scenario, history: &[Entry]) -> Result<bool, NoMemory>
    ensures { IfOk result (λ b. b ≡ is_whole scenario.now history.now) }
{
    let breach = breach_of(alloc, scenario, history, 0)?;
    if breach.is_some() || lines(history) != scenario.steps.len() {
        return Ok(false);
    }
    let all = Prefix::of(alloc, scenario, history);
    all.is_through()
}

/// The history is legal and went through the whole scenario. It costs as much as `judge`. Want of memory is the only
/// error.
#[tactic(auto, using(crate::proofs::Breaches::whole_is_whole))]
pub fn is_whole(alloc: Global, scenario: &Scenario, history: &History) -> Result<bool, NoMemory>
    ensures found { IfOk result (λ b. b ≡ is_whole scenario.now history.now.entries) }
    ensures whole { IfOk result (λ b. IsTrue b ↔ IsWhole scenario.now history.now.entries) }
{
    are_whole(alloc, scenario, history.as_slice())
}
