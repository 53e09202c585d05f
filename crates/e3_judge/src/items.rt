// The items of the present step: which inputs they ask of each site, and how far each site has come.
ghost use Rattle.std.specs.Prelude.{◌≡◌, ◌||◌, ◌^◌, ◌<◌, ◌≤◌, ◌+◌, not, nat_le, suc, length, take, drop, count_by, if◌then◌else◌, IfOk};
ghost use Rattle.std.specs.List.{list_any};
ghost use Rattle.e3_world.specs.Items.{inputs_at, inputs_of, is_delivery, is_up_at, items_through, plan_of, since_line, taken_at, to_line, turn_of};
ghost use Rattle.e3_world.specs.Packets.{is_line};
ghost use Rattle.e3_world.specs.Progress.{up_behind};

use crate::counts::add;
use crate::packets::present_items;
use crate::prefix::Prefix;
use e3_readings::{bind, inputs_asked, inputs_to, is_delivery, is_line, nothing_bound};
use e3_types::{Act, Entry, Input, List, NoMemory};
use e3_world::Addressed;

// Where the part up to the last line ends, with one more entry.
fn end_behind(end: usize, at: usize, entry: &Entry) -> usize
    requires { at < 2 ^ 63 }
    ensures { result ≡ (if is_line entry.now then suc at else end) }
{
    if is_line(entry) { at + 1 } else { end }
}

// How many entries there are up to the last line.
fn line_end(history: &[Entry]) -> usize
    ensures within { result ≤ length history.now }
    ensures to { take result history.now ≡ to_line history.now }
    ensures since { drop result history.now ≡ since_line history.now }
{
    let mut end = 0;
    for (at, entry) in history.iter().enumerate() {
        end = end_behind(end, at, entry);
    }
    end
}

/// The entries behind the last line.
pub fn since_line(history: &[Entry]) -> &[Entry]
    ensures { result.now ≡ since_line history.now }
{
    let end = line_end(history);
    &history[end..]
}

/// The entries up to the last line, with it.
pub fn to_line(history: &[Entry]) -> &[Entry]
    ensures { result.now ≡ to_line history.now }
{
    let end = line_end(history);
    &history[..end]
}

// How many of these inputs are items.
fn count_items(inputs: &[Input]) -> u64
    ensures { result ≡ count_by (λ i. not (is_delivery i)) inputs.now }
{
    let mut count: u64 = 0;
    for i in inputs {
        if !is_delivery(i) {
            count += 1;
        }
    }
    count
}

// How many inputs of an act are items.
fn items_in(act: &Act) -> u64
    ensures { result ≡ count_by (λ i. not (is_delivery i)) (inputs_of act.now) }
{
    match act {
        Act::Step { input, .. } => { if is_delivery(input) { 0 } else { 1 } }
        Act::Fall { inputs, .. } => { count_items(inputs.as_slice()) }
        _ => 0,
    }
}

// Some input of an act is a delivery.
fn delivers(act: &Act) -> bool
    ensures { result ≡ list_any is_delivery (inputs_of act.now) }
{
    match act {
        Act::Step { input, .. } => is_delivery(input),
        Act::Fall { inputs, .. } => inputs.as_slice().iter().any(|i| is_delivery(i)),
        _ => false,
    }
}

// How many of its items a site took in the present step.
fn turn_at(history: &[Entry], site: u64) -> Result<u64, NoMemory>
    ensures { IfOk result (λ turn. turn ≡ turn_of history.now site) }
{
    let mut turn = 0;
    for e in since_line(history) {
        if e.owner as u64 == site {
            turn = add(turn, items_in(&e.act))?;
        }
    }
    Ok(turn)
}

/// How many of its items a site took in the present step.
pub fn turn_of(history: &[Entry], site: u32) -> Result<u64, NoMemory>
    ensures { IfOk result (λ turn. turn ≡ turn_of history.now site) }
{
    turn_at(history, site as u64)
}

/// A packet was delivered to the site in the present step.
pub fn has_delivery(history: &[Entry], site: u32) -> bool
    ensures { result ≡ list_any is_delivery (taken_at history.now site) }
{
    let mut has = false;
    for e in since_line(history) {
        if e.owner == site && delivers(&e.act) {
            has = true;
        }
    }
    has
}

// The site is up behind one more act of its own.
fn up_behind(was: bool, act: &Act) -> bool
    ensures { result ≡ up_behind was act.now }
{
    match act {
        Act::Rise { .. } => true,
        Act::RiseFall { .. } | Act::Miss | Act::Cut | Act::Fall { .. } => false,
        _ => was,
    }
}

/// The site is up.
pub(crate) fn stands_up(history: &[Entry], site: u64) -> bool
    ensures { result ≡ is_up_at history.now site }
{
    let mut up = false;
    for e in history {
        if e.owner as u64 == site {
            up = up_behind(up, &e.act);
        }
    }
    up
}

/// The site is up.
pub fn is_up_at(history: &[Entry], site: u32) -> bool
    ensures { result ≡ is_up_at history.now site }
{
    stands_up(history, site as u64)
}

impl Prefix<'_> {
    // What the present step asks of the sites, in the order of its items.
    #[tactic(auto, using(e3_readings::proofs::ByName::inputs_are))]
    fn plan_of(&self) -> Result<List<Addressed>, NoMemory>
        ensures { IfOk result (λ plan. plan ≡ plan_of self.now.scenario.now self.now.entries.now) }
    {
        let start = to_line(self.entries);
        let mut binding = nothing_bound(self.alloc);
        bind(self.alloc, self.scenario, start, &mut binding)?;
        inputs_asked(self.alloc, &binding, present_items(self.scenario, start))
    }

    /// The inputs of the present step that go to a site.
    pub fn inputs_at(&self, site: u32) -> Result<List<Input>, NoMemory>
        ensures { IfOk result (λ inputs. inputs ≡ inputs_at self.now.scenario.now self.now.entries.now site) }
    {
        let plan = self.plan_of()?;
        inputs_to(self.alloc, plan.as_slice(), site as u64)
    }

    // The site has taken all its items, or is down.
    fn is_done(&self, site: u64) -> Result<bool, NoMemory>
        ensures { IfOk result (λ b. b ≡ (not (is_up_at self.now.entries.now site)
            || nat_le (length (inputs_at self.now.scenario.now self.now.entries.now site)) (turn_of self.now.entries.now site))) }
    {
        if !stands_up(self.entries, site) {
            return Ok(true);
        }
        let plan = self.plan_of()?;
        let inputs = inputs_to(self.alloc, plan.as_slice(), site)?;
        let turn = turn_at(self.entries, site)?;
        Ok(inputs.len() <= turn)
    }

    /// Every site has taken all its items, or is down.
    #[tactic(auto, using(crate::proofs::AllSites::all_next))]
    pub fn items_through(&self) -> Result<bool, NoMemory>
        ensures { IfOk result (λ b. b ≡ items_through self.now.scenario.now self.now.entries.now) }
    {
        let mut through = true;
        for s in 0..self.scenario.weights.len() {
            let done = self.is_done(s + 1)?;
            through = through && done;
        }
        Ok(through)
    }
}
