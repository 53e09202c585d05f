// A step of a scenario, but for what the sites do of it.
ghost use Rattle.std.specs.Prelude.{◌≡◌, ◌≤◌, ◌<◌, ◌^◌, ◌⊎◌, ◌∷◌, [], ℕ, List as Items, suc, true, length, IfOk, IfSome, IsErr, MatchOption, OnOk, OnErr, Ok, Err, None};
ghost use Rattle.e3_play.specs.GoingOn.{SitesGoOn};
ghost use Rattle.e3_play.specs.Known.{KnowsNames};
ghost use Rattle.e3_play.specs.Played.{IsAsked, IsFresh, IsReady, IsSettled};
ghost use Rattle.e3_play.specs.Delivered.{IsFull};
ghost use Rattle.e3_play.specs.Settled.{is_asking};
ghost use Rattle.e3_play.specs.declared.sites.RunFault.TheVariants.{HistoryFull};
ghost use Rattle.e3_world.specs.Given.{IsGiven};
ghost use Rattle.e3_types.specs.declared.scenarios.Item.TheVariants as item;
ghost use Rattle.e3_world.specs.Packets.{lines, step_items};

use crate::alone::{crash, recovery, restart};
use crate::kinds::{Kind, kind_of};
use crate::names::Names;
use crate::{RunFault, Sites};
use e3_readings::{inputs_asked, parts_due, step_items};
use e3_types::{Item, List, Scenario, SiteSet};
use e3_world::Addressed;
use std::alloc::Global;

// The parts of the network that a step asks for are set, where it asks for them.
fn set_parts<S: Sites>(
    alloc: Global,
    scenario: &Scenario,
    sites: &mut S,
    items: &[Item],
) -> Result<(), RunFault>
    requires played { S.scenario sites.old ≡ scenario.now }
    requires standing { S.stands sites.old }
    requires given { IsGiven scenario.now }
    requires form { is_asking items.now ≡ true }
    requires fresh { IsFresh scenario.now (S.entries sites.old) items.now }
    ensures on { SitesGoOn S.stands S.since S.scenario S.most sites.old sites.new }
    ensures asked { OnOk result (IsAsked (S.entries sites.old) (S.entries sites.new) items.now) }
    ensures kept { OnErr result (S.entries sites.new ≡ S.entries sites.old) }
    ensures full { result ≡ Err HistoryFull → IsFull scenario.now (S.entries sites.new) (S.most sites.old) }
{
    match parts_due(alloc, scenario, items)? {
        Some(parts) => sites.parts(parts),
        None => Ok(()),
    }
}

// A group, a split or a merge: its parts are set, and this is what it asks of the sites. The inputs are computed once, behind
// the line; so a name that the step itself binds stands for nothing in it.
fn exchange<S: Sites>(
    alloc: Global,
    scenario: &Scenario,
    sites: &mut S,
    names: &mut Names,
    items: &[Item],
) -> Result<List<Addressed>, RunFault>
    requires played { S.scenario sites.old ≡ scenario.now }
    requires standing { S.stands sites.old }
    requires given { IsGiven scenario.now }
    requires form { is_asking items.now ≡ true }
    requires fresh { IsFresh scenario.now (S.entries sites.old) items.now }
    requires known { KnowsNames scenario.now (S.entries sites.old) names.old }
    ensures on { SitesGoOn S.stands S.since S.scenario S.most sites.old sites.new }
    ensures known { OnOk result (KnowsNames scenario.now (S.entries sites.new) names.new) }
    ensures ready { IfOk result (λ inputs. IsReady scenario.now (lines (S.entries sites.old)) (S.entries sites.new) inputs) }
    ensures full { result ≡ Err HistoryFull → IsFull scenario.now (S.entries sites.new) (S.most sites.old) }
{
    names.read_on(alloc, scenario, sites.history())?;
    let inputs = inputs_asked(alloc, &names.binding, items)?;
    set_parts(alloc, scenario, sites, items)?;
    Ok(inputs)
}

/// The step of the next number: its line, and all that the driver does of it. Where it asks something of the sites, these
/// inputs are what it asks, and once the sites settled with them the step is through; else it is through. The line of a stop
/// arms the disk, and that is all.
pub fn begin_step<S: Sites>(
    alloc: Global,
    scenario: &Scenario,
    sites: &mut S,
    names: &mut Names,
    done: u32,
) -> Result<Option<List<Addressed>>, RunFault>
    requires played { S.scenario sites.old ≡ scenario.now }
    requires standing { S.stands sites.old }
    requires given { IsGiven scenario.now }
    requires most { S.most sites.old ≤ 2000000 }
    requires more { suc done ≤ length scenario.now.steps }
    requires settled { IsSettled scenario.now (S.entries sites.old) done }
    requires known { KnowsNames scenario.now (S.entries sites.old) names.old }
    ensures on { SitesGoOn S.stands S.since S.scenario S.most sites.old sites.new }
    ensures known { OnOk result (KnowsNames scenario.now (S.entries sites.new) names.new) }
    ensures begun { IfOk result (λ asked. MatchOption asked (IsSettled scenario.now (S.entries sites.new) (suc done))
        (λ inputs. IsReady scenario.now (suc done) (S.entries sites.new) inputs)) }
    ensures full { result ≡ Err HistoryFull → IsFull scenario.now (S.entries sites.new) (S.most sites.old) }
{
    let number = done + 1;
    let items = step_items(scenario, number as u64);
    match kind_of(items) {
        Kind::Stop { site, calls, leave } => {
            sites.stop(number, site, calls, leave)?;
            Ok(None)
        }
        Kind::Crash { site } => {
            sites.line(number)?;
            crash(sites, site)?;
            Ok(None)
        }
        Kind::Restart { site } => {
            sites.line(number)?;
            restart(sites, site)?;
            Ok(None)
        }
        Kind::Recovery { group } => {
            sites.line(number)?;
            recovery(alloc, sites, group)?;
            Ok(None)
        }
        Kind::Exchange => {
            sites.line(number)?;
            let inputs = exchange(alloc, scenario, sites, names, items)?;
            Ok(Some(inputs))
        }
    }
}

/// Enters the line of the next step where that is a recovery, and answers the group that is to recover. Where it is another
/// step nothing is entered.
pub fn begin_recovery<S: Sites>(
    scenario: &Scenario,
    sites: &mut S,
    done: u32,
) -> Result<Option<SiteSet>, RunFault>
    requires played { S.scenario sites.old ≡ scenario.now }
    requires standing { S.stands sites.old }
    requires more { suc done ≤ length scenario.now.steps }
    requires few { length scenario.now.steps < 2 ^ 32 }
    requires settled { IsSettled scenario.now (S.entries sites.old) done }
    ensures on { SitesGoOn S.stands S.since S.scenario S.most sites.old sites.new }
    ensures due { IfOk result (λ due. IfSome due (λ group. IsFresh scenario.now (S.entries sites.new) (item.Recover group ∷ []))) }
    ensures another { result ≡ Ok None → (group : Items ℕ) → step_items scenario.now (suc done) ≡ item.Recover group ∷ [] → ⊥ }
    ensures kept { (result ≡ Ok None) ⊎ IsErr result → S.entries sites.new ≡ S.entries sites.old }
{
    let number = done + 1;
    let items = step_items(scenario, number as u64);
    match kind_of(items) {
        Kind::Recovery { group } => {
            sites.line(number)?;
            Ok(Some(group))
        }
        _ => Ok(None),
    }
}
