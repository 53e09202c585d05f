// The rounds of a recovery step.
ghost use Rattle.std.specs.Prelude.{◌≡◌, ◌≤◌, ◌∷◌, [], drop, length, IfOk, OnOk, Err};
ghost use Rattle.e3_play.specs.GoingOn.{SitesGoOn};
ghost use Rattle.e3_play.specs.Reports.{HadTurns, IsRecovered, IsReport};
ghost use Rattle.e3_play.specs.Rounds.{AfterRound, IsAtTurn};
ghost use Rattle.e3_play.specs.Delivered.{IsFullBefore, IsPacketOrRound};
ghost use Rattle.e3_play.specs.Settled.{StaysInStep};
ghost use Rattle.e3_play.specs.declared.sites.RunFault.TheVariants.{HistoryFull};
ghost use Rattle.e3_types.specs.declared.scenarios.Item.TheVariants as item;
ghost use Rattle.e3_world.specs.Items.{listed, since_line};
ghost use Rattle.e3_world.specs.Packets.{pending, present_items};

use crate::listing::listed;
use crate::reporting::{RoundReport, round_report};
use crate::{RunFault, Sites, deliver_all};
use e3_readings::RecoveryRound;
use e3_types::{Entry, Input, List, SiteSet};
use std::alloc::Global;

// A round at its turn: its elector elects with the members, and packets are delivered. Where it is down, nothing is done.
fn make_round<S: Sites>(sites: &mut S, round: &RecoveryRound) -> Result<(), RunFault>
    requires { IsAtTurn S.stands S.scenario S.entries sites.old round.now }
    ensures on { SitesGoOn S.stands S.since S.scenario S.most sites.old sites.new }
    ensures grown { StaysInStep (S.entries sites.old) (S.entries sites.new) }
    ensures made { OnOk result (AfterRound (S.scenario sites.old) (S.entries sites.old) round.now (S.entries sites.new)) }
    ensures full { result ≡ Err HistoryFull → IsFullBefore IsPacketOrRound (S.scenario sites.old) (S.entries sites.new) (S.most sites.old) }
{
    if !sites.is_up(round.elector) {
        return Ok(());
    }
    sites.input(
        round.elector,
        Input::Elect {
            txn: round.txn,
            group: round.members,
        },
    )?;
    deliver_all(sites)
}

// The entries behind the first so many.
fn behind(history: &[Entry], count: usize) -> &[Entry]
    requires { count ≤ length history.now }
    ensures { result.now ≡ drop count history.now }
{
    &history[count..]
}

// A round at its turn, and what is reported of it.
fn take_turn<S: Sites>(sites: &mut S, round: &RecoveryRound) -> Result<RoundReport, RunFault>
    requires { IsAtTurn S.stands S.scenario S.entries sites.old round.now }
    ensures on { SitesGoOn S.stands S.since S.scenario S.most sites.old sites.new }
    ensures grown { StaysInStep (S.entries sites.old) (S.entries sites.new) }
    ensures made { OnOk result (AfterRound (S.scenario sites.old) (S.entries sites.old) round.now (S.entries sites.new)) }
    ensures told { IfOk result (λ report. IsReport (S.entries sites.old) (S.entries sites.new) round.now report) }
    ensures full { result ≡ Err HistoryFull → IsFullBefore IsPacketOrRound (S.scenario sites.old) (S.entries sites.new) (S.most sites.old) }
{
    let from = sites.history().len();
    make_round(sites, round)?;
    Ok(round_report(round, behind(sites.history(), from)))
}

/// Makes the recovery rounds of a group: in ascending order for each transaction that is open at a member that is up. Its
/// elector is the least of those members that are its sites, which elects with all of them; then packets are delivered in
/// ascending order until none is pending. A round whose elector is down at its turn is passed over. With Ok there is a
/// report for each of these transactions, in their order. With a fault some rounds may be made, and no line is entered
/// either way. (After Keidar and Dolev 1998.)
pub fn recover<S: Sites>(
    alloc: Global,
    sites: &mut S,
    group: SiteSet,
) -> Result<List<RoundReport>, RunFault>
    requires standing { S.stands sites.old }
    requires few { S.most sites.old ≤ 2000000 }
    requires step { present_items (S.scenario sites.old) (S.entries sites.old) ≡ item.Recover group ∷ [] }
    requires fresh { since_line (S.entries sites.old) ≡ [] }
    requires settled { pending (S.scenario sites.old) (S.entries sites.old) ≡ [] }
    ensures on { SitesGoOn S.stands S.since S.scenario S.most sites.old sites.new }
    ensures grown { StaysInStep (S.entries sites.old) (S.entries sites.new) }
    ensures recovered { OnOk result (IsRecovered (S.scenario sites.old) (S.entries sites.old) (S.entries sites.new)) }
    ensures rounds { IfOk result (λ reports. HadTurns (S.scenario sites.old) (S.entries sites.old) (S.entries sites.new)
        (listed (S.scenario sites.old) (S.entries sites.old) group) reports) }
    ensures full { result ≡ Err HistoryFull → IsFullBefore IsPacketOrRound (S.scenario sites.old) (S.entries sites.new) (S.most sites.old) }
{
    let rounds = listed(alloc, sites, group)?;
    let mut reports = List::new(alloc);
    for round in rounds.as_slice() {
        let report = take_turn(sites, round)?;
        reports.push(report)?;
    }
    Ok(reports)
}
