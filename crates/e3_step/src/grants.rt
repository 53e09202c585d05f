// What becomes of the requests that a decision grants.
ghost use Rattle.std.specs.Prelude.{◌≡◌, IfOk, drop, fold};
ghost use Rattle.std.specs.List.{list_any};
ghost use Rattle.e3_world.specs.Making.{decides, and_grant, and_grants};
ghost use Rattle.e3_step.specs.SoFar.{IsSoFar};

use crate::making::and_do;
use crate::past::Past;
use e3_types::{NoMemory, Record};
use e3_world::{Asked, Made};

/// The record is a decision.
pub fn decides(r: &Record) -> bool
    ensures { result ≡ decides r.now }
{
    matches!(r, Record::Decision { .. })
}

fn has_decision(records: &[Record], seen: u64) -> bool
    ensures { result ≡ list_any decides (drop seen records.now) }
{
    records.iter().skip(seen as usize).any(|r| decides(r))
}

fn grant_all<P: Past>(p: &P, asked: &[Asked], made: &mut Made) -> Result<(), NoMemory>
    requires { IsSoFar (P.at p.now) made.old }
    ensures { IfOk result (λ u. made.new ≡ fold (and_grant (P.at p.now)) made.old asked.now) }
{
    for q in asked {
        and_do(p, q, made)?;
    }
    Ok(())
}

/// Where a rule recorded a decision behind the first so many records, the requests that this grants are done.
pub fn and_grants<P: Past>(p: &P, seen: u64, made: &mut Made) -> Result<(), NoMemory>
    requires { IsSoFar (P.at p.now) made.old }
    ensures { IfOk result (λ u. made.new ≡ and_grants (P.at p.now) seen made.old) }
{
    if !has_decision(made.records.as_slice(), seen) {
        return Ok(());
    }
    let asked = p.grants_after(made)?;
    grant_all(p, asked.as_slice(), made)
}
