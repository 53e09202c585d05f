// Rises of sites, also those that fail or are missed, and cuts. They are few, and their guards are read anew.
ghost use Rattle.std.specs.Prelude.{◌≡◌, ◌≤◌, ◌++◌, ◌∷◌, [], true, length, IfOk, IfSome, is_none};
ghost use Rattle.e3_judge.specs.audit.Seats.{IsUp, RoseLast, SeatStands, Stands};
ghost use Rattle.e3_judge.specs.Checks.{checks, first_failing};
ghost use Rattle.e3_net.specs.Stands.{is_quiet};
ghost use Rattle.e3_world.specs.Legal.{IsLegal};

use crate::Prefix;
use crate::audit::auditor::Auditor;
use crate::audit::seat::Seat;
use e3_site::{RebuildFault, Site, rebuild};
use e3_types::{Act, Entry, NoMemory, Scenario};
use std::alloc::Global;

/// The entry may come here, by plain readings of these.
pub(crate) fn may_come(prefix: &Prefix<'_>, entry: &Entry) -> Result<bool, NoMemory>
    ensures { IfOk result (λ b. b ≡ is_none (first_failing (checks prefix.now.scenario.now prefix.now.entries.now entry.now))) }
{
    Ok(prefix.entry_breach(entry)?.is_none())
}

// The site that rose by the last of these entries. Its log is in order, so there is one; that is not proved here, but seen.
fn risen(
    alloc: Global,
    scenario: &Scenario,
    after: &[Entry],
    site: u32,
) -> Result<Option<Site>, NoMemory>
    requires legal { IsLegal scenario.now after.now }
    requires rose { RoseLast after.now site }
    ensures { IfOk result (λ risen. IfSome risen (IsUp scenario.now after.now site)) }
{
    let prefix = Prefix::of(alloc, scenario, after);
    let log = prefix.log_at(site)?;
    if log.is_empty() {
        return Ok(None);
    }
    match rebuild(alloc, site, log.as_slice()) {
        Ok(up) => Ok(Some(up)),
        Err(RebuildFault::NoMemory) => Err(NoMemory),
        Err(_) => Ok(None),
    }
}

// What is kept of a site goes on over its rise, over one that failed or was missed, and over its cut. No other entry is any
// of these.
fn turn(
    prefix: &Prefix<'_>,
    after: &[Entry],
    entry: &Entry,
    seat: &mut Seat,
) -> Result<bool, NoMemory>
    requires legal { IsLegal prefix.now.scenario.now after.now }
    requires stands { SeatStands prefix.now.scenario.now prefix.now.entries.now entry.now.owner seat.old }
    requires after { after.now ≡ prefix.now.entries.now ++ entry.now ∷ [] }
    ensures quiet { IfOk result (λ on. on ≡ true → is_quiet entry.now.act ≡ true) }
    ensures stands { IfOk result (λ on. on ≡ true → SeatStands prefix.now.scenario.now after.now entry.now.owner seat.new) }
{
    match &entry.act {
        Act::Rise { .. } => match risen(prefix.alloc, prefix.scenario, after, entry.owner)? {
            Some(up) => {
                seat.stand(up);
                Ok(true)
            }
            None => Ok(false),
        },
        Act::RiseFall { .. } | Act::Miss => {
            seat.stay_down();
            Ok(true)
        }
        Act::Cut => {
            seat.lie();
            Ok(true)
        }
        _ => Ok(false),
    }
}

impl Auditor {
    /// Goes on over a rise of a site of the scenario, one that failed or was missed, or a cut, where it may come here.
    pub(crate) fn turn(
        &mut self,
        prefix: &Prefix<'_>,
        after: &[Entry],
        entry: &Entry,
    ) -> Result<bool, NoMemory>
        requires stands { Stands prefix.now.scenario.now prefix.now.entries.now self.old }
        requires some { 1 ≤ entry.now.owner }
        requires exists { entry.now.owner ≤ length prefix.now.scenario.now.weights }
        requires after { after.now ≡ prefix.now.entries.now ++ entry.now ∷ [] }
        ensures { IfOk result (λ on. on ≡ true → Stands prefix.now.scenario.now after.now self.new) }
    {
        let may = may_come(prefix, entry)?;
        if !may {
            return Ok(false);
        }
        let seat = &mut self.seats[entry.owner as usize - 1];
        let on = turn(prefix, after, entry, seat)?;
        if !on {
            return Ok(false);
        }
        Ok(true)
    }
}
