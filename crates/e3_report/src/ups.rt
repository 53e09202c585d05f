// The sites that are up, kept from entry to entry.
ghost use Rattle.std.specs.Prelude.{◌≡◌, ℕ, OnOk};
ghost use Rattle.e3_report.specs.Ups.{up_in, up_with};

use e3_types::{Act, Entry, NoMemory};
use std::collections::BTreeSet;

/// One more entry: a rise adds its site, and what takes a site down takes it away.
#[tactic(auto, using(e3_order::proofs::Maps::number_query))]
pub(crate) fn enter_up(ups: &mut BTreeSet<u32>, entry: &Entry) -> Result<(), NoMemory>
    ensures { OnOk result ((site : ℕ) → up_in ups.new.keys site ≡ up_with site entry.now (up_in ups.old.keys site)) }
{
    match &entry.act {
        Act::Rise { .. } => {
            if ups.insert(entry.owner).is_err() {
                return Err(NoMemory);
            }
        }
        Act::RiseFall { .. } | Act::Miss | Act::Cut | Act::Fall { .. } => {
            ups.remove(&entry.owner);
        }
        _ => {}
    }
    Ok(())
}
