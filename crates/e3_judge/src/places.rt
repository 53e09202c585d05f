// The records of all logs, in the order of their places.
ghost use Rattle.std.specs.Prelude.{◌≡◌, ◌++◌, drop, IfOk, OnOk};
ghost use Rattle.e3_readings.specs.Places.{placed_at};
ghost use Rattle.e3_world.specs.Moves.{all_records, trail_of};
ghost use Rattle.e3_judge.specs.Added.{added_by};

use crate::prefix::Prefix;
use e3_readings::{SiteRecord, add_placed};
use e3_types::{Entry, List, NoMemory, Record, Scenario};
use std::alloc::Global;

// The records of a log behind the first so many.
fn behind(log: &[Record], had: usize) -> &[Record]
    ensures { result.now ≡ drop had log.now }
{
    if had >= log.len() {
        return &[];
    }
    &log[had..]
}

// Adds what the last of these entries adds to the log of its owner: what that log has more than before the entry.
fn add_of(
    alloc: Global,
    out: &mut List<SiteRecord>,
    scenario: &Scenario,
    before: &[Entry],
    with: &[Entry],
    site: u32,
) -> Result<(), NoMemory>
    ensures { OnOk result (out.new ≡ out.old ++ placed_at site (added_by scenario.now before.now with.now site)) }
{
    let before = Prefix::of(alloc, scenario, before);
    let with = Prefix::of(alloc, scenario, with);
    let old = before.log_at(site)?;
    let had = old.as_slice().len();
    let log = with.log_at(site)?;
    add_placed(alloc, out, site, behind(log.as_slice(), had))
}

/// The records of all logs, each at the place of the entry that put it there.
pub(crate) fn placed(
    alloc: Global,
    scenario: &Scenario,
    history: &[Entry],
) -> Result<List<SiteRecord>, NoMemory>
    ensures { IfOk result (λ records. records ≡ all_records (trail_of scenario.now history.now)) }
{
    let mut out = List::new(alloc);
    for at in 0..history.len() {
        add_of(
            alloc,
            &mut out,
            scenario,
            &history[..at],
            &history[..at + 1],
            history[at].owner,
        )?;
    }
    Ok(out)
}
