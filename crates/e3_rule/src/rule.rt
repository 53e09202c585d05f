// The verdict over the reports of a group.
ghost use Rattle.std.specs.Prelude.{◌≡◌, ◌*◌, ◌<◌, ◌≤◌, ◌==◌, ◌||◌, ◌↔◌, IsTrue, false, length, map, min, not};
ghost use Rattle.std.specs.List.{list_all};
ghost use Rattle.e3_types.specs.declared.transactions.State.TheVariants.{Pc, C, A};
ghost use Rattle.e3_types.specs.Quorums.{weight_of};
ghost use Rattle.e3_types.specs.Same.{same_state};
ghost use Rattle.e3_types.specs.Verdicts.{reports_state, greatest_attempt, verdict_by, verdict_of};
ghost use Rattle.e3_rule.specs.Blocks.{is_block};

use e3_quorum::{weight_at, weight_of};
use e3_types::{SiteReport, SiteSet, State, Verdict};
use std::cmp::max;

// Some site reports this state.
fn reports_state(state: State, reports: &[SiteReport]) -> bool
    ensures { result ≡ reports_state state reports.now }
{
    reports.iter().any(|report| report.state.is_same(state))
}

// The greatest attempt that is reported, 0 for none.
fn greatest_attempt(reports: &[SiteReport]) -> u32
    ensures { result ≡ greatest_attempt reports.now }
{
    reports
        .iter()
        .fold(0, |greatest, report| max(greatest, report.attempt))
}

// All that report this attempt are pre-committed.
fn are_pre_committed(attempt: u32, reports: &[SiteReport]) -> bool
    ensures { result ≡ list_all (λ r. not (r.attempt == attempt) || same_state r.state Pc) reports.now }
{
    reports.iter().all(|report| report.attempt != attempt || report.state.is_same(State::Pc))
}

// The verdict of reporters that have so much weight of so much in all.
fn verdict_by(have: u64, total: u64, reports: &[SiteReport]) -> Verdict
    ensures { result ≡ verdict_by have total reports.now }
{
    let greatest = greatest_attempt(reports);
    if reports_state(State::A, reports) {
        Verdict::Abort
    } else if reports_state(State::C, reports) {
        Verdict::Commit
    } else if have <= total / 2 {
        Verdict::Block { have, total }
    } else if are_pre_committed(greatest, reports) {
        Verdict::PreCommit
    } else {
        Verdict::PreAbort
    }
}

/// What sites with these reports, whose weight is `have` of `total`, conclude, the first that applies: somebody aborted,
/// somebody committed, the group is no quorum, all whose attempt is the greatest are pre-committed, or none of these.
/// A group is a quorum where twice its weight exceeds the total. It takes no memory.
pub fn decide(reports: &[SiteReport], have: u64, total: u64) -> Verdict
    requires { 0 < length reports.now }
    ensures rule { result ≡ verdict_by have total reports.now }
    ensures block { IsTrue (is_block result)
        ↔ ((reports_state A reports.now ≡ false) × (reports_state C reports.now ≡ false) × (2 * have ≤ total)) }
{
    verdict_by(have, total, reports)
}

// The weight of the reporters, or the greatest number where it is greater than that.
fn weight_of_reporters(weights: &[u32], reports: &[SiteReport]) -> u64
    ensures { result ≡ min (weight_of weights.now (map (λ r. r.site) reports.now)) u64.MAX }
{
    let mut sum: u64 = 0;
    for report in reports {
        sum = sum.saturating_add(weight_at(weights, report.site) as u64);
    }
    sum
}

/// What an elector of a transaction with these sites concludes from its group's reports, by the weights of all sites, that
/// of site 1 first: what `decide` gives for the reporters' weight of that of the sites.
pub fn verdict_of(weights: &[u32], sites: SiteSet, reports: &[SiteReport]) -> Verdict
    ensures { result ≡ verdict_of weights.now sites reports.now }
{
    let have = weight_of_reporters(weights, reports);
    let total = weight_of(weights, sites);
    verdict_by(have, total, reports)
}
