// Records of logs, each with the site whose log has it.
ghost use Rattle.std.specs.Prelude.{◌≡◌, ◌++◌, OnOk};
ghost use Rattle.e3_readings.specs.Places.{placed_at};

use e3_types::{Copied, List, NoMemory, Record};
use std::alloc::Global;
use std::marker::Model;

/// A record, and the site whose log has it.
#[derive(Drop)]
pub struct SiteRecord {
    site: u32,
    entered: Record,
}

impl Model for SiteRecord {
    ghost use Rattle.e3_world.specs.Moves.{Placed};

    ghost Value = { Placed };

    ghost view = { λ a. record { site = a.site; entered = a.entered } };
}

impl SiteRecord {
    /// The site.
    pub fn site(&self) -> u32
        ensures { result ≡ self.now.site }
    {
        self.site
    }

    /// The record.
    pub fn entered(&self) -> &Record
        ensures { result.now ≡ self.now.entered }
    {
        &self.entered
    }
}

/// Adds these records of a site's log.
pub fn add_placed(
    alloc: Global,
    out: &mut List<SiteRecord>,
    site: u32,
    records: &[Record],
) -> Result<(), NoMemory>
    ensures { OnOk result (out.new ≡ out.old ++ placed_at site records.now) }
{
    for r in records {
        out.push(SiteRecord {
            site,
            entered: r.copied(alloc)?,
        })?;
    }
    Ok(())
}
