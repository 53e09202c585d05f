// From bytes to records.
ghost use Rattle.std.specs.Prelude.{ℕ, ◌≡◌, ◌⊎◌, ◌++◌, ◌<◌, List as Items, length, IfOk, IsErrOf, Err, MatchResult};
ghost use Rattle.e3_types.specs.declared.records.Record.{Record};
ghost use Rattle.e3_types.specs.declared.records.Record.TheVariants as log;
ghost use Rattle.e3_types.specs.Spelling.{spell_record, spelling};
ghost use Rattle.e3_codec.specs.Fields.{CanBeReadBack, AllCanBeReadBack};
ghost use Rattle.e3_codec.specs.Places.{NoRecord, FirstBad};
ghost use Rattle.e3_codec.specs.Reader.{Gives, mapped_at};
ghost use Rattle.e3_codec.specs.Reading.{birth_at, vote_at, join_at, attempt_at, decision_at, record_at};

use crate::faults::{Fault, RecordFault};
use crate::fields::{dir_at, txn_at, u8_at, u32_at};
use crate::listed::list_at;
use e3_types::{List, NumOp, Record, Row};
use std::alloc::Global;

fn birth_at(alloc: Global, site: u32, bytes: &[u8]) -> Result<(Record, &[u8]), Fault>
    ensures { Gives (λ x. (x.0, x.1.now)) result (mapped_at (λ p. log.Birth p.0 p.1.0 p.1.1.0 p.1.1.1) birth_at bytes.now) }
{
    let (format, rest) = u32_at(bytes)?;
    let (own, rest) = u32_at(rest)?;
    let (weights, rest) = list_at::<u32>(alloc, site, rest)?;
    let (rows, rest) = list_at::<Row>(alloc, site, rest)?;
    let birth = Record::Birth {
        format,
        site: own,
        weights,
        rows,
    };
    Ok((birth, rest))
}

fn vote_at(alloc: Global, site: u32, bytes: &[u8]) -> Result<(Record, &[u8]), Fault>
    ensures { Gives (λ x. (x.0, x.1.now)) result (mapped_at (λ p. log.Vote p.0 p.1) (vote_at site) bytes.now) }
{
    match txn_at(bytes) {
        Err(fault) => Err(fault),
        Ok((txn, rest)) => {
            let (ops, rest) = list_at::<NumOp>(alloc, site, rest)?;
            Ok((Record::Vote { txn, ops }, rest))
        }
    }
}

fn join_at(bytes: &[u8]) -> Result<(Record, &[u8]), Fault>
    ensures { Gives (λ x. (x.0, x.1.now)) result (mapped_at (λ p. log.Join p.0 p.1) join_at bytes.now) }
{
    match txn_at(bytes) {
        Err(fault) => Err(fault),
        Ok((txn, rest)) => {
            let (n, rest) = u32_at(rest)?;
            Ok((Record::Join { txn, n }, rest))
        }
    }
}

fn attempt_at(bytes: &[u8]) -> Result<(Record, &[u8]), Fault>
    ensures { Gives (λ x. (x.0, x.1.now)) result (mapped_at (λ p. log.Attempt p.0 p.1.0 p.1.1) attempt_at bytes.now) }
{
    match txn_at(bytes) {
        Err(fault) => Err(fault),
        Ok((txn, rest)) => {
            let (n, rest) = u32_at(rest)?;
            let (dir, rest) = dir_at(rest)?;
            Ok((Record::Attempt { txn, n, dir }, rest))
        }
    }
}

fn decision_at(bytes: &[u8]) -> Result<(Record, &[u8]), Fault>
    ensures { Gives (λ x. (x.0, x.1.now)) result (mapped_at (λ p. log.Decision p.0 p.1) decision_at bytes.now) }
{
    match txn_at(bytes) {
        Err(fault) => Err(fault),
        Ok((txn, rest)) => {
            let (dir, rest) = dir_at(rest)?;
            Ok((Record::Decision { txn, dir }, rest))
        }
    }
}

#[tactic(auto, unfolding(crate::specs::Reading::record_at, crate::specs::Reading::body_at))]
fn record_at(alloc: Global, site: u32, bytes: &[u8]) -> Result<(Record, &[u8]), Fault>
    ensures { Gives (λ x. (x.0, x.1.now)) result (record_at site bytes.now) }
{
    let (tag, rest) = u8_at(bytes)?;
    match tag {
        1 => birth_at(alloc, site, rest),
        2 => {
            let (inc, rest) = u32_at(rest)?;
            Ok((Record::Inc { inc }, rest))
        }
        3 => vote_at(alloc, site, rest),
        4 => join_at(rest),
        5 => attempt_at(rest),
        6 => decision_at(rest),
        _ => Err(Fault::Bad),
    }
}

// The record at the front, in the words of the spelling.
fn next_record(alloc: Global, site: u32, bytes: &[u8]) -> Result<(Record, &[u8]), Fault>
    ensures found { IfOk result (λ x. (bytes.now ≡ spell_record x.0 ++ x.1.now) × CanBeReadBack site x.0) }
    ensures shorter { IfOk result (λ x. length x.1.now < length bytes.now) }
    ensures none { IsErrOf result Fault.Bad → NoRecord site bytes.now }
{
    record_at(alloc, site, bytes)
}

fn all_records(alloc: Global, site: u32, bytes: &[u8]) -> Result<List<Record>, RecordFault>
    ensures found { IfOk result (λ rs. AllCanBeReadBack site rs × (bytes.now ≡ spelling rs)) }
    ensures bad { (at : ℕ) → result ≡ Err (RecordFault.Bad at) → FirstBad site bytes.now at }
{
    let mut records = List::new(alloc);
    let mut rest = bytes;
    while !rest.is_empty() {
        match next_record(alloc, site, rest) {
            Ok((record, after)) => {
                let Ok(()) = records.push(record) else {
                    return Err(RecordFault::NoMemory);
                };
                rest = after;
            }
            Err(Fault::Bad) => {
                let at = (bytes.len() - rest.len()) as u64;
                return Err(RecordFault::Bad { at });
            }
            Err(Fault::NoMemory) => return Err(RecordFault::NoMemory),
        }
    }
    Ok(records)
}

/// The records of a site's log whose spellings these bytes are, one after the other. An operation of a vote that is read
/// has a key of this site, since the bytes leave the site out. `Bad` names the first place where no record begins; no
/// bytes at all are no records.
pub fn read_records(alloc: Global, site: u32, bytes: &[u8]) -> Result<List<Record>, RecordFault>
    // What is read is spelled so, and its operations have keys of the site. Where the bytes spell such records, they are
    // read, if memory suffices.
    ensures found { IfOk result (λ rs. AllCanBeReadBack site rs × (bytes.now ≡ spelling rs)) }

    ensures exact { (records : Items Record) → AllCanBeReadBack site records → bytes.now ≡ spelling records →
        MatchResult result (λ rs. rs ≡ records) (λ e. e ≡ RecordFault.NoMemory) }

    // `Bad` names the first place where no record begins. Where there is such a place, it is named, if memory suffices.
    ensures bad { (at : ℕ) → result ≡ Err (RecordFault.Bad at) → FirstBad site bytes.now at }
    ensures only_bad { (at : ℕ) → FirstBad site bytes.now at →
        MatchResult result (λ rs. ⊥) (λ e. (e ≡ RecordFault.Bad at) ⊎ (e ≡ RecordFault.NoMemory)) }
{
    all_records(alloc, site, bytes)
}
