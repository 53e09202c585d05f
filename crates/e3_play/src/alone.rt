// Steps that stand alone: a crash, a restart and a recovery. Each is passed over where it has nothing to do.
ghost use Rattle.std.specs.Prelude.{◌≡◌, ◌≤◌, ◌∷◌, [], length, OnOk, Err};
ghost use Rattle.e3_play.specs.GoingOn.{SitesGoOn};
ghost use Rattle.e3_play.specs.Played.{IsFresh, IsSettled};
ghost use Rattle.e3_play.specs.Delivered.{IsFull};
ghost use Rattle.e3_play.specs.Settled.{StaysInStep};
ghost use Rattle.e3_play.specs.declared.sites.RunFault.TheVariants.{HistoryFull};
ghost use Rattle.e3_types.specs.declared.scenarios.Item.TheVariants as item;
ghost use Rattle.e3_world.specs.Packets.{lines};

use crate::{RunFault, Sites, recover};
use e3_types::SiteSet;
use std::alloc::Global;

/// The power of a site is cut where it is up.
pub fn crash<S: Sites>(sites: &mut S, site: u32) -> Result<(), RunFault>
    requires standing { S.stands sites.old }
    requires fresh { IsFresh (S.scenario sites.old) (S.entries sites.old) (item.Crash site ∷ []) }
    ensures on { SitesGoOn S.stands S.since S.scenario S.most sites.old sites.new }
    ensures grown { StaysInStep (S.entries sites.old) (S.entries sites.new) }
    ensures settles { OnOk result (IsSettled (S.scenario sites.old) (S.entries sites.new) (lines (S.entries sites.old))) }
    ensures full { result ≡ Err HistoryFull → IsFull (S.scenario sites.old) (S.entries sites.new) (S.most sites.old) }
{
    if sites.is_up(site) {
        sites.cut(site)
    } else {
        Ok(())
    }
}

/// A site rises where it is down.
pub fn restart<S: Sites>(sites: &mut S, site: u32) -> Result<(), RunFault>
    requires standing { S.stands sites.old }
    requires fresh { IsFresh (S.scenario sites.old) (S.entries sites.old) (item.Restart site ∷ []) }
    requires least { 1 ≤ site }
    requires exists { site ≤ length (S.scenario sites.old).weights }
    ensures on { SitesGoOn S.stands S.since S.scenario S.most sites.old sites.new }
    ensures grown { StaysInStep (S.entries sites.old) (S.entries sites.new) }
    ensures settles { OnOk result (IsSettled (S.scenario sites.old) (S.entries sites.new) (lines (S.entries sites.old))) }
    ensures full { result ≡ Err HistoryFull → IsFull (S.scenario sites.old) (S.entries sites.new) (S.most sites.old) }
{
    if sites.is_up(site) {
        Ok(())
    } else {
        sites.rise(site)
    }
}

/// A group ends what is open at its sites. What its rounds report is in the history.
pub fn recovery<S: Sites>(alloc: Global, sites: &mut S, group: SiteSet) -> Result<(), RunFault>
    requires standing { S.stands sites.old }
    requires few { S.most sites.old ≤ 2000000 }
    requires fresh { IsFresh (S.scenario sites.old) (S.entries sites.old) (item.Recover group ∷ []) }
    ensures on { SitesGoOn S.stands S.since S.scenario S.most sites.old sites.new }
    ensures grown { StaysInStep (S.entries sites.old) (S.entries sites.new) }
    ensures settles { OnOk result (IsSettled (S.scenario sites.old) (S.entries sites.new) (lines (S.entries sites.old))) }
    ensures full { result ≡ Err HistoryFull → IsFull (S.scenario sites.old) (S.entries sites.new) (S.most sites.old) }
{
    let _reports = recover(alloc, sites, group)?;
    Ok(())
}
