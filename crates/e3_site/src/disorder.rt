// Where records stop being the log of a site.
ghost use Rattle.std.specs.Prelude.{◌≡◌, IfOk, MatchOption};
ghost use Rattle.e3_world.specs.Orderly.{IsOrderly};
ghost use Rattle.e3_site.specs.Orderly.{IsFirstDisorder, disorder_in};
ghost use Rattle.e3_site.specs.Reading.{IsWalk};

use crate::before::{Plain, Tabled};
use crate::headings::{inc_by, weights_by};
use crate::order::is_orderly_next;
use crate::past::Logged;
use e3_readings::logged_inc;
use e3_types::{NoMemory, Record};
use std::alloc::Global;

fn disorder_in(site: u32, records: &[Record]) -> Option<usize>
    ensures { result ≡ disorder_in site records.now }
{
    for (k, r) in records.iter().enumerate() {
        let before = Plain {
            records: &records[..k],
        };
        if !is_orderly_next(site, &before, r) {
            return Some(k);
        }
    }
    None
}

/// The first place, counted from 0, where the records stop being the log of this site; None exactly where they are one.
/// Each record is read against all those before it, so the time grows with the square of their number; but it takes no
/// memory.
#[tactic(auto, using(crate::proofs::Firsts::disorder_found))]
pub fn first_disorder(site: u32, records: &[Record]) -> Option<u64>
    ensures { MatchOption result (IsOrderly site records.now) (IsFirstDisorder site records.now) }
{
    disorder_in(site, records).map(|at| at as u64)
}

/// What a walk over records finds.
#[derive(Drop)]
pub(crate) enum Walk {
    /// They are the log of the site, and this is read of it.
    Log(Logged),
    /// They stop being it at this place.
    Disorder(usize),
}

/// Walks over the records with tables of those before each, so that the time grows with their number. Want of memory is the
/// only error.
pub(crate) fn read_in_order(alloc: Global, site: u32, records: &[Record]) -> Result<Walk, NoMemory>
    ensures { IfOk result (IsWalk site records.now) }
{
    let rising = logged_inc(records);
    let mut read = Logged::new(alloc, site, rising);
    let mut inc = 0;
    let mut weights: &[u32] = &[];
    for (k, r) in records.iter().enumerate() {
        let before = Tabled {
            site,
            rising,
            records: &records[..k],
            read: &read,
            inc,
            weights,
        };
        if !is_orderly_next(site, &before, r) {
            return Ok(Walk::Disorder(k));
        }
        read.read(alloc, r)?;
        inc = inc_by(inc, r);
        weights = weights_by(weights, r);
    }
    Ok(Walk::Log(read))
}
