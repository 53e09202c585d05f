// What the present step of a scenario asks for, and whether it is through.
ghost use Rattle.std.specs.Prelude.{◌≡◌, ◌&&◌, ◌||◌, not, nat_lt, IfOk};
ghost use Rattle.std.specs.List.{list_all};
ghost use Rattle.e3_types.specs.Sets.{has_site};
ghost use Rattle.e3_world.specs.Legal.{begins_with_parts, has_rising, is_made, is_rising, is_through, may_rise};
ghost use Rattle.e3_world.specs.Packets.{all_sites};

use crate::items::{is_up_at, since_line};
use crate::packets::{lines, present_items};
use crate::prefix::Prefix;
use e3_types::{Act, Entry, Item, NoMemory, Scenario};

/// The owner is a site of the scenario.
#[tactic(auto, using(crate::proofs::AllSites::has_from_one))]
pub fn is_site(scenario: &Scenario, owner: u32) -> bool
    ensures { result ≡ has_site (all_sites scenario.now) owner }
{
    1 <= owner && owner as u64 <= scenario.weights.len()
}

// A rise, a failed one or a missed one.
fn is_rising(e: &Entry) -> bool
    ensures { result ≡ is_rising e.now }
{
    matches!(e.act, Act::Rise { .. } | Act::RiseFall { .. } | Act::Miss)
}

// The site has such an entry among these.
fn has_rising(entries: &[Entry], site: u64) -> bool
    ensures { result ≡ has_rising entries.now site }
{
    let mut has = false;
    for e in entries {
        if e.owner as u64 == site && is_rising(e) {
            has = true;
        }
    }
    has
}

// All sites of a lower number have such an entry.
#[tactic(auto, using(crate::proofs::AllSites::all_next))]
fn lower_rose(scenario: &Scenario, history: &[Entry], site: u64) -> bool
    ensures { result ≡ list_all (λ s. not (nat_lt s site) || has_rising history.now s) (all_sites scenario.now) }
{
    let mut all = true;
    for s in 0..scenario.weights.len() {
        let rose = s + 1 >= site || has_rising(history, s + 1);
        all = all && rose;
    }
    all
}

// All sites have such an entry.
#[tactic(auto, using(crate::proofs::AllSites::all_next))]
fn all_rose(scenario: &Scenario, history: &[Entry]) -> bool
    ensures { result ≡ list_all (has_rising history.now) (all_sites scenario.now) }
{
    let mut all = true;
    for s in 0..scenario.weights.len() {
        let rose = has_rising(history, s + 1);
        all = all && rose;
    }
    all
}

/// The site has its turn to rise: before the first line by ascending number, later in its restart step.
pub fn may_rise(scenario: &Scenario, history: &[Entry], site: u32) -> bool
    ensures { result ≡ may_rise scenario.now history.now site }
{
    if lines(history) == 0 {
        return !has_rising(history, site as u64) && lower_rose(scenario, history, site as u64);
    }
    match present_items(scenario, history) {
        [Item::Restart { site: s }, ..] => {
            *s == site && !has_rising(since_line(history), site as u64)
        }
        _ => false,
    }
}

/// The first of these entries is one of parts.
pub fn begins_with_parts(entries: &[Entry]) -> bool
    ensures { result ≡ begins_with_parts entries.now }
{
    match entries {
        [] => false,
        [e, ..] => matches!(e.act, Act::Parts { .. }),
    }
}

impl Prefix<'_> {
    // The one item of the present step had its entry, or is skipped; in a group or a recover step: all of it.
    fn is_made(&self) -> Result<bool, NoMemory>
        ensures { IfOk result (λ b. b ≡ is_made self.now.scenario.now self.now.entries.now) }
    {
        match present_items(self.scenario, self.entries) {
            [Item::Recover { .. }, ..] => Ok(self.due_round()?.is_none()),
            [Item::Split { .. } | Item::Merge, ..] => {
                Ok(begins_with_parts(since_line(self.entries)))
            }
            [Item::Crash { site }, ..] => Ok(!is_up_at(self.entries, *site)),
            [Item::Restart { site }, ..] => {
                let rose = has_rising(since_line(self.entries), *site as u64);
                Ok(is_up_at(self.entries, *site) || rose)
            }
            [Item::Stop { .. }, ..] => Ok(true),
            _ => self.items_through(),
        }
    }

    /// All before the next line is through.
    pub fn is_through(&self) -> Result<bool, NoMemory>
        ensures { IfOk result (λ b. b ≡ is_through self.now.scenario.now self.now.entries.now) }
    {
        if lines(self.entries) == 0 {
            return Ok(all_rose(self.scenario, self.entries));
        }
        let left = self.pending()?;
        let made = self.is_made()?;
        Ok(left.is_empty() && made)
    }
}
