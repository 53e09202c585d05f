// The first rises.
ghost use Rattle.std.specs.Prelude.{◌≡◌, [], length, OnOk, Err};
ghost use Rattle.e3_play.specs.GoingOn.{SitesGoOn};
ghost use Rattle.e3_play.specs.Played.{IsSettled};
ghost use Rattle.e3_play.specs.Delivered.{IsFull};
ghost use Rattle.e3_play.specs.declared.sites.RunFault.TheVariants.{HistoryFull};

use crate::{RunFault, Sites};

/// Each site rises once, in ascending order.
pub fn rise_all<S: Sites>(sites: &mut S, count: u32) -> Result<(), RunFault>
    requires standing { S.stands sites.old }
    requires all { count ≡ length (S.scenario sites.old).weights }
    requires empty { S.entries sites.old ≡ [] }
    ensures on { SitesGoOn S.stands S.since S.scenario S.most sites.old sites.new }
    ensures settled { OnOk result (IsSettled (S.scenario sites.old) (S.entries sites.new) 0) }
    ensures full { result ≡ Err HistoryFull → IsFull (S.scenario sites.old) (S.entries sites.new) (S.most sites.old) }
{
    for done in 0..count {
        sites.rise(done + 1)?;
    }
    Ok(())
}
