// The brief of the log of a site of the program.
ghost use Rattle.std.specs.Prelude.{◌≡◌, IfOk, List as Items};
ghost use Rattle.e3_world.specs.Brief.{brief};
ghost use Rattle.e3_site.specs.SiteView.{Stands};
ghost use Rattle.e3_site.specs.SiteBrief.{TellsBrief, TellsBriefAlike};
ghost use Rattle.e3_site.specs.TableBrief.{IsInOrder};
ghost use Rattle.e3_world.specs.declared.lives.Incarnation.{Incarnation};
ghost use Rattle.e3_world.specs.Lives.{life_of, present_log};

use crate::Site;
use crate::table_brief::brief_of_tables;
use e3_laws::serial::logs_are_orderly;
use e3_laws::steps::trails_are_sound;
use e3_types::{List, NoMemory, Record};
use std::alloc::Global;

/// The brief of the log of the site for which a site of the program stands, in each legal history: the site keeps no log, and
/// this costs what its tables have. Want of memory is the only error.
pub fn brief_of_site(alloc: Global, site: &Site) -> Result<List<Record>, NoMemory>
    ensures now { IfOk result (λ out. (now : Incarnation) → Stands now site.now → IsInOrder site.now.weights site.now.site (life_of now) → out ≡ brief (present_log now)) }
    ensures stands { IfOk result (TellsBrief site.now) }
    ensures alike { IfOk result (TellsBriefAlike site.now) }
{
    trails_are_sound();
    logs_are_orderly();
    let brief = brief_of_tables(alloc, site.weights(), site.site(), site.tables())?;
    Ok(brief)
}
