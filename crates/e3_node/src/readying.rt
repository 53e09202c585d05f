// A rise that is ready to be made.
// Why what a function owns is handed to `drop`: docs/DECISIONS.md, "What owns much is handed to `drop`".
ghost use Rattle.std.specs.Prelude.{◌≡◌, ◌≤◌, ◌<◌, ◌^◌, ◌↔◌, suc, length, Err, IfOk, OnOk, OnErr};
ghost use Rattle.e3_log.specs.Found.{bodies_of};
ghost use Rattle.e3_node.specs.Rising.{IsForeign, IsReady, IsWish, NextIsCounted, born_by, records_by};
ghost use Rattle.e3_node.specs.SharedStands.{IsClaimed, SharedStands};
ghost use Rattle.e3_node.specs.declared.readying.Unready.TheVariants as unready;
ghost use Rattle.e3_site.specs.Rebuilt.{IsRebuilt, StandsForEach};
ghost use Rattle.e3_wire.specs.Marks.{entries_of, last_owner, most_of};
ghost use Rattle.e3_wire.specs.declared.fault.WireFault.TheVariants.{HistoryFull};
ghost use Rattle.e3_world.specs.Logs.{logged_inc};
ghost use Rattle.e3_world.specs.Orderly.{IsOrderly};

use crate::entering::{claim, is_full};
use crate::fitting::spelled;
use crate::reading::read_frames;
use e3_log::Frame;
use e3_readings::logged_inc;
use e3_site::{RebuildFault, Site, rebuild};
use e3_types::{Copied, List, NoMemory, Record, Row};
use e3_wire::{Shared, WireFault};
use std::alloc::Global;

/// What a rise takes with it to the disk: the site's number, weights and first rows.
#[derive(Drop)]
pub(crate) struct Wish {
    pub alloc: Global,
    pub site: u32,
    pub weights: List<u32>,
    pub rows: List<Row>,
}

/// A rise for which all memory is taken: the site that is up with it; how many records were read, and all that it rose with; the
/// records of the rise and their spelling; whether what was in doubt is kept, and the incarnation.
#[derive(Drop)]
pub(crate) struct Readied {
    pub up: Site,
    pub read: u64,
    pub rose: List<Record>,
    pub records: List<Record>,
    pub body: List<u8>,
    pub kept: bool,
    pub inc: u32,
}

/// Why no rise is ready.
#[derive(Clone, Copy)]
pub(crate) enum Unready {
    /// There was no memory.
    NoMemory,
    /// What is on the disk is not the log of the site. It comes of no disk that stands for a history.
    Foreign,
}

impl From<NoMemory> for Unready {
    ghost use Rattle.e3_node.specs.declared.readying.Unready.TheVariants as unready;

    ghost from_gives = { λ _ f. f ≡ unready.NoMemory };

    fn from(_cause: NoMemory) -> Unready {
        Unready::NoMemory
    }
}

// What a rise of this site takes with it.
fn wish_of(
    alloc: Global,
    site: u32,
    weights: &List<u32>,
    rows: &List<Row>,
) -> Result<Wish, NoMemory>
    ensures { IfOk result (IsWish site weights.now rows.now) }
{
    Ok(Wish {
        alloc,
        site,
        weights: weights.copied(alloc)?,
        rows: rows.copied(alloc)?,
    })
}

/// What a rise of this site takes with it, and a place is claimed for its entry. A full history is told before want of memory.
pub(crate) fn claim_rise(
    shared: &mut Shared,
    site: u32,
    weights: &List<u32>,
    rows: &List<Row>,
) -> Result<Wish, WireFault>
    requires shared { SharedStands shared.old }
    requires exists { site ≤ last_owner shared.old }
    ensures wish { IfOk result (IsWish site weights.now rows.now) }
    ensures claimed { OnOk result (IsClaimed site 0 shared.old shared.new) }
    ensures kept { OnErr result (shared.new ≡ shared.old) }
    ensures full { (result ≡ Err HistoryFull) ↔ (most_of shared.old ≤ length (entries_of shared.old)) }
{
    if is_full(shared) {
        return Err(WireFault::HistoryFull);
    }
    match wish_of(shared.alloc(), site, weights, rows) {
        Ok(wish) => match claim(shared, site, 0) {
            Ok(()) => Ok(wish),
            Err(fault) => {
                drop(wish);
                Err(fault)
            }
        },
        Err(_) => Err(WireFault::NoMemory),
    }
}

// The birth, where the log is empty.
fn birth_of(wish: &Wish, log: &[Record]) -> Result<List<Record>, NoMemory>
    ensures { IfOk result (λ records. records ≡ born_by wish.now log.now) }
{
    let mut records = List::new(wish.alloc);
    if log.is_empty() {
        records.push(Record::Birth {
            format: 1,
            site: wish.site,
            weights: wish.weights.copied(wish.alloc)?,
            rows: wish.rows.copied(wish.alloc)?,
        })?;
    }
    Ok(records)
}

// The incarnation behind this log. A site has no more of them than it has entries, so 32 bits count it.
fn next_inc(log: &[Record]) -> u32
    requires { suc (logged_inc log.now) < 2 ^ 32 }
    ensures { result ≡ suc (logged_inc log.now) }
{
    logged_inc(log) + 1
}

// The records of the rise behind this log.
fn records_by(wish: &Wish, inc: u32, log: &[Record]) -> Result<List<Record>, NoMemory>
    ensures { IfOk result (λ records. records ≡ records_by wish.now inc log.now) }
{
    let mut records = birth_of(wish, log)?;
    records.push(Record::Inc { inc })?;
    Ok(records)
}

/// The site that rose with this log.
#[tactic(auto, using(crate::proofs::Strange::disordered))]
pub(crate) fn rebuilt(alloc: Global, site: u32, log: &[Record]) -> Result<Site, Unready>
    requires some { 0 < length log.now }
    ensures risen { IfOk result (IsRebuilt site log.now) }
    ensures stands { IfOk result (StandsForEach log.now) }
    ensures foreign { result ≡ Err unready.Foreign → ¬ IsOrderly site log.now }
{
    match rebuild(alloc, site, log) {
        Ok(up) => Ok(up),
        Err(RebuildFault::NoMemory) => Err(Unready::NoMemory),
        Err(RebuildFault::Order { .. }) => Err(Unready::Foreign),
    }
}

/// The rise of a site whose disk has these frames. What is read is kept, all of it: more records than so many are the log and
/// those that were in doubt.
pub(crate) fn ready(wish: &Wish, logged: u64, frames: &[Frame]) -> Result<Readied, Unready>
    requires { NextIsCounted wish.now.site (bodies_of frames.now) }
    ensures ready { IfOk result (IsReady wish.now logged (bodies_of frames.now)) }
    ensures foreign { result ≡ Err unready.Foreign → IsForeign wish.now (bodies_of frames.now) }
{
    let mut log = read_frames(wish.alloc, wish.site, frames)?;
    let read = log.len();
    let kept = logged < read;
    let inc = next_inc(log.as_slice());
    let records = records_by(wish, inc, log.as_slice())?;
    let body = spelled(wish.alloc, records.as_slice())?;
    log.add_copies(wish.alloc, records.as_slice())?;
    let up = rebuilt(wish.alloc, wish.site, log.as_slice())?;
    Ok(Readied {
        up,
        read,
        rose: log,
        records,
        body,
        kept,
        inc,
    })
}
