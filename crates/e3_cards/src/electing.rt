// The election of a transaction in progress, behind one more step.
ghost use Rattle.std.specs.Prelude.{◌≡◌, ◌<◌, IfOk, suc};
ghost use Rattle.e3_cards.specs.Electing.{election_now, seen_report};

use crate::seen::{Seen, seen_state};
use e3_elect::Election;
use e3_readings::{Electing, election_anew, election_behind, has_decision, has_verdict};
use e3_types::{Call, Input, NoMemory, SiteReport, Txn};
use e3_world::SiteStep;
use std::alloc::Global;

// What a site that has seen this of a transaction reports of it.
fn seen_report(site: u32, seen: &Seen) -> SiteReport
    ensures { result ≡ seen_report site seen.now }
{
    SiteReport {
        site,
        state: seen_state(seen),
        attempt: seen.attempt,
    }
}

/// The election behind one more step. An Elect of the transaction has the call behind the calls so far.
pub(crate) fn election_now(
    alloc: Global,
    site: u32,
    inc: u32,
    calls: u32,
    t: &Txn,
    seen: &Seen,
    was: Option<Election>,
    step: &SiteStep,
) -> Result<Option<Election>, NoMemory>
    requires { calls < 4294967295 }
    ensures { IfOk result (λ o. o ≡ election_now site (record { inc = inc; seq = suc calls }) t.now seen.now was step.now) }
{
    let records = step.records.as_slice();
    if has_decision(t, records) || has_verdict(t, step.told.as_slice()) {
        return Ok(None);
    }
    let at = Electing {
        t,
        report: seen_report(site, seen),
        records,
    };
    match &step.input {
        Input::Elect { txn, group } if t.is_same(txn) => {
            let call = Call {
                inc,
                seq: calls + 1,
            };
            election_anew(alloc, &at, seen.elected, call, *group)
        }
        Input::Deliver { packet } => Ok(election_behind(&at, packet, was)),
        _ => Ok(was),
    }
}
