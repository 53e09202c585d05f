// What both judges say of histories.
use crate::audits::changes::{CHANGES, changed};
use e3_judge::audit::audit;
use e3_judge::{Breach, is_whole, judge};
use e3_types::{Entry, NoMemory, Scenario};
use e3_world::History;
use std::alloc::Global;

/// How many histories were compared, how many of them are legal, and on how many the judges say the same.
#[derive(Clone, Copy)]
pub struct Tally {
    pub compared: u64,
    pub legal: u64,
    pub same: u64,
}

fn same_breach(one: &Option<Breach>, other: &Option<Breach>) -> bool {
    match (one, other) {
        (None, None) => true,
        (Some(one), Some(other)) => one.at == other.at && one.guard == other.guard,
        _ => false,
    }
}

impl Tally {
    // Counts a history.
    fn count(&mut self, is_legal: bool, is_same: bool) {
        self.compared = self.compared.saturating_add(1);
        if is_legal {
            self.legal = self.legal.saturating_add(1);
        }
        if is_same {
            self.same = self.same.saturating_add(1);
        }
    }
}

// Both judges look at a history.
fn compare(
    alloc: Global,
    scenario: &Scenario,
    history: &History,
    tally: &mut Tally,
) -> Result<(), NoMemory> {
    let plain = judge(alloc, scenario, history)?;
    let whole = is_whole(alloc, scenario, history)?;
    let audited = audit(alloc, scenario, history)?;
    let is_same = same_breach(&plain, &audited.breach) && whole == audited.whole;
    tally.count(plain.is_none(), is_same);
    Ok(())
}

// Both judges look at a history with a change.
fn compare_changed(
    alloc: Global,
    scenario: &Scenario,
    entries: &[Entry],
    change: &[usize],
    at: usize,
    tally: &mut Tally,
) -> Result<(), NoMemory> {
    let other = changed(alloc, entries, change, at)?;
    compare(alloc, scenario, &other, tally)
}

/// Both judges look at a history and at each change of it.
pub fn compare_all(
    alloc: Global,
    scenario: &Scenario,
    history: &History,
) -> Result<Tally, NoMemory> {
    let mut tally = Tally {
        compared: 0,
        legal: 0,
        same: 0,
    };
    compare(alloc, scenario, history, &mut tally)?;
    let entries = history.as_slice();
    for change in CHANGES {
        for at in 0..entries.len() {
            compare_changed(alloc, scenario, entries, change, at, &mut tally)?;
        }
    }
    Ok(tally)
}
