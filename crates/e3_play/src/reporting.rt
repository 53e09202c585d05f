// What is reported of a round: the verdict that its elector told.
ghost use Rattle.std.specs.Prelude.{◌≡◌, fold};
ghost use Rattle.std.specs.List.{flat_map};
ghost use Rattle.e3_laws.specs.rounds.Rounds.{verdicts_at, verdict_in};
ghost use Rattle.e3_play.specs.Reports.{later, later_of, verdict_of};

use e3_readings::RecoveryRound;
use e3_types::{Act, Entry, Told, Txn, Verdict};

/// What came of the round of a transaction: the last verdict on it that its elector told in it. There is none where none was
/// told, as where the elector was down at its turn or fell in it.
#[derive(Drop)]
pub struct RoundReport {
    pub txn: Txn,
    pub verdict: Option<Verdict>,
}

// The verdict on the transaction, where this event tells one; else the one before.
fn verdict_by(txn: &Txn, was: Option<Verdict>, told: &Told) -> Option<Verdict>
    ensures { result ≡ fold later was (verdict_in txn.now told.now) }
{
    match told {
        Told::Verdict {
            txn: judged,
            verdict,
            ..
        } => {
            if txn.is_same(judged) {
                Some(*verdict)
            } else {
                was
            }
        }
        _ => was,
    }
}

// The last verdict on the transaction, the one before and these events taken together.
fn verdict_after(txn: &Txn, was: Option<Verdict>, told: &[Told]) -> Option<Verdict>
    ensures { result ≡ fold later was (flat_map (verdict_in txn.now) told.now) }
{
    let mut last = was;
    for event in told {
        last = verdict_by(txn, last, event);
    }
    last
}

// The last verdict of the round's elector on its transaction, the one before and this entry taken together.
fn verdict_with(round: &RecoveryRound, was: Option<Verdict>, entry: &Entry) -> Option<Verdict>
    ensures { result ≡ fold (later_of round.now.elector) was (verdicts_at round.now.txn entry.now) }
{
    if entry.owner != round.elector {
        return was;
    }
    match &entry.act {
        Act::Step { told, .. } => verdict_after(&round.txn, was, told.as_slice()),
        _ => was,
    }
}

/// The report of a round that entered these entries, all sites' in their order: what `recover` reports of it.
pub fn round_report(round: &RecoveryRound, entered: &[Entry]) -> RoundReport
    ensures txn { result.txn ≡ round.now.txn }
    ensures told { result.verdict ≡ verdict_of round.now entered.now }
{
    let mut verdict = None;
    for entry in entered {
        verdict = verdict_with(round, verdict, entry);
    }
    RoundReport {
        txn: round.txn,
        verdict,
    }
}
