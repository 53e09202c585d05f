// The frame of a move.
ghost use Rattle.std.specs.Prelude.{◌≡◌, ◌≢◌, ◌+◌, ◌<◌, ◌≤◌, ◌++◌, [], ℕ, true, false, length, List as Items, OnOk, IfErr, Some as Given, Err};
ghost use Rattle.e3_codec.specs.Fields.{AllCanBeReadBack};
ghost use Rattle.e3_disk.specs.Meters.{HasFailed, Keeps};
ghost use Rattle.e3_world.specs.Brief.{brief};
ghost use Rattle.e3_world.specs.Orderly.{IsOrderly};
ghost use Rattle.e3_log.specs.Regions.{limit, other, start};
ghost use Rattle.e3_node.specs.site_log.Bodies.{IsLogged, ReadsLeft};
ghost use Rattle.e3_node.specs.site_log.Ends.{HasRoom, IsBehind, IsPut, IsReason, IsShortOf, IsTurned, MayTurn, Takes, calls_for, turn_why, why_of};
ghost use Rattle.e3_node.specs.site_log.Writing.{Leaves, Reasons, Writes};
ghost use Rattle.e3_types.specs.Spelling.{spelling};
ghost use Rattle.e3_types.specs.declared.records.Record.{Record as Records};

use e3_disk::Disk;
use e3_log::{AppendFault, Log, TurnFault};
use e3_types::{List, Record, Why};

/// A short log that a long one is turned to: its spelling, and how many records it has.
#[derive(Drop)]
pub struct Short {
    pub body: List<u8>,
    pub count: u64,
}

fn why_of(fault: AppendFault) -> Why
    ensures { result ≡ why_of fault }
{
    match fault {
        AppendFault::Failed => Why::Fault,
        AppendFault::Full { need, room } => Why::Full { need, room },
    }
}

// Adds the frame of some records.
fn add<D: Disk>(
    log: &mut Log<D>,
    logged: &mut u64,
    records: &[Record],
    body: &[u8],
) -> Result<(), Why>
    requires spelled { body.now ≡ spelling records.now }
    requires some { records.now ≢ [] }
    ensures logged { (site most : ℕ) (l : Items Records) → IsLogged D.meaning site most l logged.old log.old →
        IsOrderly site (l ++ records.now) → AllCanBeReadBack site records.now →
        OnOk result (IsLogged D.meaning site most (l ++ records.now) logged.new log.new) }
    ensures left { (site most : ℕ) (l : Items Records) → IsLogged D.meaning site most l logged.old log.old →
        IsOrderly site (l ++ records.now) → AllCanBeReadBack site records.now →
        IfErr result (λ why. (bytes : Items ℕ) → D.meaning.image log.new.disk bytes →
        ReadsLeft site (D.meaning.meters log.new.disk).capacity most l records.now logged.new why bytes) }
    ensures fault { log.old.failed ≡ false → result ≡ Err Why.Fault → HasFailed (D.meaning.meters log.old.disk).faults (D.meaning.meters log.new.disk).faults }
    ensures full { (need room : ℕ) → result ≡ Err (Why.Full need room) →
        (limit (D.meaning.meters log.old.disk).capacity log.old.region < log.old.end + 6 + length body.now)
        × (need ≡ log.old.end + 6 + length body.now) × (room ≡ limit (D.meaning.meters log.old.disk).capacity log.old.region) }
    ensures end { OnOk result (IsBehind log.old records.now log.new) }
    ensures keeps { Keeps (D.meaning.meters log.old.disk) (D.meaning.meters log.new.disk) }
    ensures lit { OnOk result ((D.meaning.meters log.new.disk).powered ≡ true) }
    ensures takes { OnOk result (Takes 4 (D.meaning.meters log.old.disk) (D.meaning.meters log.new.disk)) }
{
    match log.append(body) {
        Ok(()) => {
            *logged = logged.saturating_add(records.len() as u64);
            Ok(())
        }
        Err(fault) => Err(why_of(fault)),
    }
}

// Closes the other region: what it has is older than the log.
fn clear<D: Disk>(log: &mut Log<D>) -> Result<(), Why>
    ensures logged { (site most logged : ℕ) (l : Items Records) → IsLogged D.meaning site most l logged log.old →
        OnOk result (IsLogged D.meaning site most l logged log.new) }
    ensures left { (site most logged : ℕ) (l more : Items Records) → IsLogged D.meaning site most l logged log.old →
        IfErr result (λ why. (bytes : Items ℕ) → D.meaning.image log.new.disk bytes →
        ReadsLeft site (D.meaning.meters log.new.disk).capacity most l more logged why bytes) }
    ensures fault { log.old.failed ≡ false → IfErr result (λ why. (why ≡ Why.Fault) × HasFailed (D.meaning.meters log.old.disk).faults (D.meaning.meters log.new.disk).faults) }
    ensures shut { OnOk result (log.new.spare_open ≡ false) }
    ensures sound { OnOk result (log.new.failed ≡ false) }
    ensures log { (log.new.region ≡ log.old.region) × (log.new.generation ≡ log.old.generation) }
    ensures keeps { Keeps (D.meaning.meters log.old.disk) (D.meaning.meters log.new.disk) }
    ensures stops { OnOk result ((D.meaning.meters log.new.disk).stops ≡ (D.meaning.meters log.old.disk).stops) }
    ensures takes { OnOk result (Takes 0 (D.meaning.meters log.old.disk) (D.meaning.meters log.new.disk)) }
{
    match log.clear() {
        Ok(()) => Ok(()),
        Err(_) => Err(Why::Fault),
    }
}

fn turn_why(fault: TurnFault) -> Why
    ensures { result ≡ turn_why fault }
{
    match fault {
        TurnFault::Full { need, room } => Why::Full { need, room },
        _ => Why::Fault,
    }
}

// Turns the log to a short one, in the other region, which is closed before: it may have an older log.
fn turn_to<D: Disk>(log: &mut Log<D>, logged: &mut u64, short: &Short) -> Result<(), Why>
    requires next { log.old.generation < 4294967295 }
    requires some { 0 < length short.now.body }
    ensures logged { (site most : ℕ) (l : Items Records) → IsLogged D.meaning site most l logged.old log.old →
        IsShortOf site l short.now → OnOk result (IsLogged D.meaning site (most + 1) l logged.new log.new) }
    ensures left { (site most : ℕ) (l more : Items Records) → IsLogged D.meaning site most l logged.old log.old →
        IsShortOf site l short.now → IfErr result (λ why. (bytes : Items ℕ) → D.meaning.image log.new.disk bytes →
        ReadsLeft site (D.meaning.meters log.new.disk).capacity (most + 1) l more logged.new why bytes) }
    ensures reason { (l records : Items Records) → l ≢ [] → short.now.body ≡ spelling (brief l) → log.old.failed ≡ false →
        IfErr result (λ why. IsReason why l records (D.meaning.meters log.old.disk) (D.meaning.meters log.new.disk)) }
    ensures fits { OnOk result (start (D.meaning.meters log.old.disk).capacity (other log.old.region) + 11 + length short.now.body
        ≤ limit (D.meaning.meters log.old.disk).capacity (other log.old.region)) }
    ensures log { OnOk result ((log.new.region ≡ other log.old.region)
        × (log.new.end ≡ start (D.meaning.meters log.old.disk).capacity (other log.old.region) + 10 + length short.now.body)) }
    ensures counts { OnOk result (log.new.generation ≡ log.old.generation + 1) }
    ensures keeps { Keeps (D.meaning.meters log.old.disk) (D.meaning.meters log.new.disk) }
    ensures stops { OnOk result ((D.meaning.meters log.new.disk).stops ≡ (D.meaning.meters log.old.disk).stops) }
    ensures takes { OnOk result (Takes 4 (D.meaning.meters log.old.disk) (D.meaning.meters log.new.disk)) }
{
    match clear(log) {
        Ok(()) => match log.turn(short.body.as_slice()) {
            Ok(()) => {
                *logged = short.count;
                Ok(())
            }
            Err(fault) => {
                *logged = (*logged).max(short.count);
                Err(turn_why(fault))
            }
        },
        Err(why) => Err(why),
    }
}

// The frame of some records behind a short log.
fn turn_and_add<D: Disk>(
    log: &mut Log<D>,
    logged: &mut u64,
    short: &Short,
    records: &[Record],
    body: &[u8],
) -> Result<(), Why>
    requires spelled { body.now ≡ spelling records.now }
    requires some { records.now ≢ [] }
    requires next { log.old.generation < 4294967295 }
    requires body { 0 < length short.now.body }
    ensures logged { Writes D.meaning log.old log.new logged.old logged.new (Given short.now) records.now result }
    ensures left { Leaves D.meaning log.old log.new logged.old logged.new (Given short.now) records.now result }
    ensures reason { Reasons D.meaning log.old log.new logged.old logged.new (Given short.now) records.now result }
    ensures end { OnOk result (IsTurned D.meaning.meters log.old short.now.body records.now log.new) }
    ensures keeps { Keeps (D.meaning.meters log.old.disk) (D.meaning.meters log.new.disk) }
    ensures lit { OnOk result ((D.meaning.meters log.new.disk).powered ≡ true) }
    ensures takes { OnOk result (Takes 4 (D.meaning.meters log.old.disk) (D.meaning.meters log.new.disk)) }
{
    match turn_to(log, logged, short) {
        Ok(()) => add(log, logged, records, body),
        Err(why) => Err(why),
    }
}

/// Adds the frame of these records, whose spelling is given, where there are any. Where it has no room behind the log, and a
/// short log is given, that is turned to it first, and only there. However it ends, each image reads as the log before or as
/// that with the records.
pub fn write<D: Disk>(
    log: &mut Log<D>,
    logged: &mut u64,
    short: &Option<Short>,
    records: &[Record],
    body: &[u8],
) -> Result<(), Why>
    requires spelled { body.now ≡ spelling records.now }
    requires lit { (D.meaning.meters log.old.disk).powered ≡ true }
    requires may { MayTurn log.old short.now }
    ensures logged { Writes D.meaning log.old log.new logged.old logged.new short.now records.now result }
    ensures left { Leaves D.meaning log.old log.new logged.old logged.new short.now records.now result }
    ensures reason { Reasons D.meaning log.old log.new logged.old logged.new short.now records.now result }
    ensures end { OnOk result (records.now ≢ [] → IsPut D.meaning.meters log.old short.now records.now log.new) }
    ensures stays { log.old.failed ≡ false → HasRoom D.meaning.meters log.old (length body.now) → OnOk result (records.now ≢ [] → IsBehind log.old records.now log.new) }
    ensures room { log.old.failed ≡ false → HasRoom D.meaning.meters log.old (length body.now) → IfErr result (λ why. why ≡ Why.Fault) }
    ensures some { IfErr result (λ _. records.now ≢ []) }
    ensures same { records.now ≡ [] → (log.new ≡ log.old) × (logged.new ≡ logged.old) }
    ensures keeps { Keeps (D.meaning.meters log.old.disk) (D.meaning.meters log.new.disk) }
    ensures lit { OnOk result ((D.meaning.meters log.new.disk).powered ≡ true) }
    ensures takes { OnOk result (Takes (calls_for records.now) (D.meaning.meters log.old.disk) (D.meaning.meters log.new.disk)) }
{
    if records.is_empty() {
        return Ok(());
    }
    match short {
        None => add(log, logged, records, body),
        Some(short) => {
            if log.fits(body.len() as u64) {
                add(log, logged, records, body)
            } else {
                turn_and_add(log, logged, short, records, body)
            }
        }
    }
}
