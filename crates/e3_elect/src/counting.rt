// What counts in an election, and what the answers come to.
ghost use Rattle.std.specs.Prelude.{◌≡◌, ◌==◌, ◌&&◌, if◌then◌else◌, ℕ, suc, true, not, nat_lt, max, fold, List as Items, length, Some, None};
ghost use Rattle.std.specs.List.{list_any};
ghost use Rattle.e3_types.specs.Same.{same_call};
ghost use Rattle.e3_types.specs.Sets.{has_site};
ghost use Rattle.e3_elect.specs.Calling.{IsWhole, are_behind_elector};

use e3_types::{Call, SiteReport, SiteSet};
use e3_world::Named;
use std::cmp::max;

// The site is among those that were heard.
fn was_heard(heard: &[Named], site: u32) -> bool
    ensures { result ≡ list_any (λ h. h.site == site) heard.now }
{
    heard.iter().any(|h| h.site == site)
}

// The site is among those that reported.
fn has_reported(reports: &[SiteReport], site: u32) -> bool
    ensures { result ≡ list_any (λ r. r.site == site) reports.now }
{
    reports.iter().any(|r| r.site == site)
}

/// The greatest number that was heard, 0 where none was.
pub(crate) fn greatest_of(heard: &[Named]) -> u32
    ensures { result ≡ fold (λ n h. max n h.elected) 0 heard.now }
{
    heard.iter().fold(0, |n, h| max(n, h.elected))
}

/// As many came as the group has sites: the whole group, where all that came are of it.
pub(crate) fn is_as_many(came: usize, group: SiteSet) -> bool
    ensures count { result ≡ (came == length group) }
    ensures whole { (sites : Items ℕ) → length sites ≡ came → are_behind_elector group sites ≡ true → IsWhole group sites result }
{
    came == group.count() as usize
}

/// The greatest number that was heard plus one: some exactly where as many were heard as the group has sites, and the
/// greatest is below 4,294,967,295.
pub(crate) fn number_of(heard: &[Named], group: SiteSet) -> Option<u32>
    ensures { result ≡ (if length heard.now == length group && nat_lt (fold (λ n h. max n h.elected) 0 heard.now) 4294967295
        then Some (suc (fold (λ n h. max n h.elected) 0 heard.now)) else None) }
{
    let greatest = greatest_of(heard);
    if is_as_many(heard.len(), group) && greatest < u32::MAX {
        Some(greatest + 1)
    } else {
        None
    }
}

/// An answer to a call counts in the election of the first call: it is to that one, by a member of the group that was not
/// heard yet.
pub(crate) fn is_awaited(
    of_election: Call,
    group: SiteSet,
    heard: &[Named],
    site: u32,
    call: Call,
) -> bool
    ensures { result ≡ (same_call of_election call && has_site group site && not (list_any (λ h. h.site == site) heard.now)) }
{
    of_election.is_same(call) && group.has(site) && !was_heard(heard, site)
}

/// A report under the election's number counts: it is by a member of the group that has not reported yet.
pub(crate) fn is_owed(group: SiteSet, reports: &[SiteReport], site: u32) -> bool
    ensures { result ≡ (has_site group site && not (list_any (λ r. r.site == site) reports.now)) }
{
    group.has(site) && !has_reported(reports, site)
}
