// The site that rose with a log.
ghost use Rattle.std.specs.Prelude.{◌≡◌, ◌<◌, IfOk, IfErr, length};
ghost use Rattle.e3_site.specs.past.Standing.{TablesStand};
ghost use Rattle.e3_site.specs.Rebuilt.{IsFaultOf, IsRebuilt, StandsForBrief, StandsForEach};
ghost use Rattle.e3_site.specs.SiteView.{risen_with};
ghost use Rattle.e3_world.specs.Lives.{life_of};
ghost use Rattle.e3_world.specs.Orderly.{IsOrderly, weights_in};

use crate::Site;
use crate::disorder::{Walk, first_disorder, read_in_order};
use crate::headings::weights_in;
use crate::past::Tables;
use e3_laws::serial::logs_are_orderly;
use e3_types::{List, NoMemory, Record};
use std::alloc::Global;

/// Why no site is rebuilt.
#[derive(Clone, Copy, Debug, PartialEq, Eq)]
pub enum RebuildFault {
    /// The records are not the log of the site; the place is that of the first record, counted from 0, that may not stand
    /// behind those before it.
    Order { at: u64 },
    /// An allocation was refused.
    NoMemory,
}

// The weights of a log, as a list of their own.
fn weights_of(alloc: Global, records: &[Record]) -> Result<List<u32>, NoMemory>
    ensures { IfOk result (λ weights. weights ≡ weights_in records.now) }
{
    let mut weights = List::new(alloc);
    weights.extend(weights_in(records))?;
    Ok(weights)
}

// Why there are no tables of the records, where memory wants for a walk over them: they are looked through without tables.
fn fault_in(site: u32, records: &[Record]) -> RebuildFault
    ensures { IsFaultOf site records.now result }
{
    match first_disorder(site, records) {
        Some(at) => RebuildFault::Order { at },
        None => RebuildFault::NoMemory,
    }
}

// The tables of the records, or why there are none.
fn tables_of(alloc: Global, site: u32, records: &[Record]) -> Result<Tables, RebuildFault>
    ensures orderly { IfOk result (λ tables. IsOrderly site records.now) }
    ensures stand { IfOk result (TablesStand site (life_of (risen_with records.now))) }
    ensures fault { IfErr result (IsFaultOf site records.now) }
{
    match read_in_order(alloc, site, records) {
        Ok(Walk::Log(read)) => Ok(read.into_tables(alloc)),
        Ok(Walk::Disorder(at)) => Err(RebuildFault::Order { at: at as u64 }),
        Err(NoMemory) => Err(fault_in(site, records)),
    }
}

/// The site that rose with these records as its log and did nothing since. It keeps tables of them, and no record. The weights
/// of all sites are those of the log's birth. Want of memory is the only error where the records are the log of the site.
pub fn rebuild(alloc: Global, site: u32, records: &[Record]) -> Result<Site, RebuildFault>
    requires { 0 < length records.now }
    ensures orderly { IfOk result (λ s. IsOrderly site records.now) }
    ensures fault { IfErr result (IsFaultOf site records.now) }
    ensures risen { IfOk result (IsRebuilt site records.now) }
    ensures stands { IfOk result (StandsForEach records.now) }
    ensures alike { IfOk result (StandsForBrief records.now) }
{
    logs_are_orderly();
    let tables = tables_of(alloc, site, records)?;
    match weights_of(alloc, records) {
        Ok(weights) => Ok(Site::rise(alloc, weights, site, tables)),
        Err(NoMemory) => {
            drop(tables);
            Err(RebuildFault::NoMemory)
        }
    }
}
