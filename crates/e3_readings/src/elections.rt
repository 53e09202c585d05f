// The election of a transaction that is in progress at a site, read off its steps of the present incarnation.
ghost use Rattle.std.specs.Prelude.{◌≡◌, ◌≤◌, ◌<◌, if◌then◌else◌, None, IfOk, MatchOption, count_by, length};
ghost use Rattle.std.specs.List.{list_any};
ghost use Rattle.e3_world.specs.Logs.{last_elected};
ghost use Rattle.e3_readings.specs.Electing.{election_anew, election_behind, election_taking, heard_all, report_by};
ghost use Rattle.e3_world.specs.Elections.{is_decision, is_join, begun, joined_in, tells_verdict, ends_election, after_heard, election_with, election_by, election_in_progress, is_elect, next_call};

use crate::counts::number_behind;
use crate::logs::{last_attempt, last_elected, state_of};
use e3_elect::Election;
use e3_types::{Call, Input, Message, NoMemory, Packet, Record, SiteReport, SiteSet, Told, Txn};
use e3_world::Moment;
use std::alloc::Global;

// How many elections of any transaction a site began in its incarnation, and the one of a transaction in progress.
#[derive(Drop)]
struct Elections {
    calls: u32,
    now: Option<Election>,
}

/// The record is a decision of the transaction.
pub fn is_decision(t: &Txn, r: &Record) -> bool
    ensures { result ≡ is_decision t.now r.now }
{
    match r {
        Record::Decision { txn, .. } => t.is_same(txn),
        _ => false,
    }
}

// The record is a join of the transaction.
fn is_join(t: &Txn, r: &Record) -> bool
    ensures { result ≡ is_join t.now r.now }
{
    match r {
        Record::Join { txn, .. } => t.is_same(txn),
        _ => false,
    }
}

// The number of the first join of the transaction among these records.
fn joined_in(t: &Txn, records: &[Record]) -> Option<u32>
    ensures { result ≡ joined_in t.now records.now }
{
    for r in records {
        if let Record::Join { txn, n } = r {
            if t.is_same(txn) {
                return Some(*n);
            }
        }
    }
    None
}

fn tells_verdict(t: &Txn, e: &Told) -> bool
    ensures { result ≡ tells_verdict t.now e.now }
{
    match e {
        Told::Verdict { txn, .. } => t.is_same(txn),
        _ => false,
    }
}

/// Some record among these is a decision of the transaction.
pub fn has_decision(t: &Txn, records: &[Record]) -> bool
    ensures { result ≡ list_any (is_decision t.now) records.now }
{
    records.iter().any(|r| is_decision(t, r))
}

/// Some event among these tells a verdict over the transaction.
pub fn has_verdict(t: &Txn, events: &[Told]) -> bool
    ensures { result ≡ list_any (tells_verdict t.now) events.now }
{
    events.iter().any(|e| tells_verdict(t, e))
}

// The step ends an election of the transaction by a decision or a verdict.
fn ends_election(t: &Txn, m: &Moment) -> bool
    ensures { result ≡ ends_election t.now m.now }
{
    has_decision(t, m.records.as_slice()) || has_verdict(t, m.told.as_slice())
}

// The site's own report by its log before a step.
fn own_report(site: u32, t: &Txn, before: &[Record]) -> SiteReport
    ensures { result ≡ report_by site t.now before.now }
{
    SiteReport {
        site,
        state: state_of(t, before),
        attempt: last_attempt(t, before),
    }
}

// Some record among these is a join of the transaction.
fn has_join(t: &Txn, records: &[Record]) -> bool
    ensures { result ≡ list_any (is_join t.now) records.now }
{
    records.iter().any(|r| is_join(t, r))
}

/// A transaction in a step of a site, as an election of it reads them: what the site reports of it by its log before the step,
/// and the records of the step.
#[derive(Drop)]
pub struct Electing<'a> {
    pub t: &'a Txn,
    pub report: SiteReport,
    pub records: &'a [Record],
}

// The election behind a step in which an answer was heard. Once the whole group was heard the site joins in that step,
// with its own report, or the election ends.
fn heard_all(at: &Electing<'_>, e: Election) -> Option<Election>
    ensures { result ≡ heard_all at.now.t.now at.now.report at.now.records.now e }
{
    if !e.all_heard() {
        return Some(e);
    }
    let n = joined_in(at.t, at.records)?;
    let mut joined = e;
    joined.joined_under(n, at.report);
    Some(joined)
}

fn election_taking(at: &Electing<'_>, f: u32, msg: &Message, e: Election) -> Option<Election>
    ensures { result ≡ election_taking at.now.t.now at.now.report at.now.records.now f msg.now e }
{
    let t = at.t;
    let mut now = e;
    match msg {
        Message::LastElected { txn, call, elected } if t.is_same(txn) => {
            if now.heard(f, *call, *elected) {
                heard_all(at, now)
            } else {
                Some(now)
            }
        }
        Message::Report {
            txn,
            n,
            state,
            attempt,
        } if t.is_same(txn) => {
            now.reported(
                *n,
                SiteReport {
                    site: f,
                    state: *state,
                    attempt: *attempt,
                },
            );
            Some(now)
        }
        Message::Elected { .. } if has_join(t, at.records) => None,
        _ => Some(now),
    }
}

/// The election in progress behind a step that takes this packet. A join by an Elected packet ends it.
pub fn election_behind(
    at: &Electing<'_>,
    packet: &Packet,
    was: Option<Election>,
) -> Option<Election>
    ensures { result ≡ election_behind at.now.t.now at.now.report at.now.records.now packet.now was }
{
    match was {
        Some(e) => election_taking(at, packet.from, &packet.msg, e),
        None => None,
    }
}

/// The election that begins in a step, of this call for this group, at a site that joined the election of this number last. Want
/// of memory is the only error.
pub fn election_anew(
    alloc: Global,
    at: &Electing<'_>,
    elected: u32,
    call: Call,
    group: SiteSet,
) -> Result<Option<Election>, NoMemory>
    ensures { IfOk result (λ o. o ≡ election_anew at.now.t.now at.now.report elected at.now.records.now call group) }
{
    let e = Election::start(alloc, call, group, at.report.site, elected)?;
    Ok(heard_all(at, e))
}

// What is left of an election behind a step, which ends it by a decision or a verdict.
fn unended(t: &Txn, m: &Moment, now: Option<Election>) -> Option<Election>
    ensures { result ≡ (if ends_election t.now m.now then None else now) }
{
    if ends_election(t, m) { None } else { now }
}

fn read_off<'a>(site: u32, t: &'a Txn, m: &'a Moment) -> Electing<'a>
    ensures txn { result.t.now ≡ t.now }
    ensures report { result.report ≡ report_by site t.now m.now.before }
    ensures records { result.records.now ≡ m.now.records }
{
    Electing {
        t,
        report: own_report(site, t, m.before.as_slice()),
        records: m.records.as_slice(),
    }
}

#[tactic(auto, using(crate::proofs::Reporting::heard_all_is))]
fn elected_anew(
    alloc: Global,
    site: u32,
    t: &Txn,
    m: &Moment,
    call: Call,
    group: SiteSet,
) -> Result<Option<Election>, NoMemory>
    ensures { IfOk result (λ o. o ≡ after_heard site t.now m.now (begun site call group (last_elected t.now m.now.before))) }
{
    let elected = last_elected(t, m.before.as_slice());
    let at = read_off(site, t, m);
    election_anew(alloc, &at, elected, call, group)
}

#[tactic(auto, using(crate::proofs::Reporting::behind_is))]
fn after_packet(
    site: u32,
    t: &Txn,
    m: &Moment,
    now: Option<Election>,
    packet: &Packet,
) -> Option<Election>
    ensures { MatchOption now (result ≡ None) (λ e. result ≡ election_with site t.now m.now e packet.now.«from» packet.now.msg) }
{
    let at = read_off(site, t, m);
    election_behind(&at, packet, now)
}

// The elections behind one more step. An election ends also with a join by an Elected packet, a decision or a verdict.
fn election_by(
    alloc: Global,
    site: u32,
    inc: u32,
    t: &Txn,
    was: Elections,
    m: &Moment,
) -> Result<Elections, NoMemory>
    requires { was.calls < 4294967295 }
    ensures { IfOk result (λ e. record { calls = e.calls; now = e.now }
        ≡ election_by site inc t.now (record { calls = was.calls; now = was.now }) m.now) }
{
    let mut calls = was.calls;
    let mut now = was.now;
    match &m.input {
        Input::Elect { txn, group } => {
            calls += 1;
            if t.is_same(txn) {
                now = elected_anew(alloc, site, t, m, Call { inc, seq: calls }, *group)?;
            }
        }
        Input::Deliver { packet } => {
            now = after_packet(site, t, m, now, packet);
        }
        _ => {}
    }
    Ok(Elections {
        calls,
        now: unended(t, m, now),
    })
}

/// The election of a transaction in progress at a site, in this incarnation.
pub fn election_in_progress(
    alloc: Global,
    site: u32,
    inc: u32,
    t: &Txn,
    steps: &[Moment],
) -> Result<Option<Election>, NoMemory>
    requires { length steps.now ≤ 4294967295 }
    ensures { IfOk result (λ o. o ≡ election_in_progress site inc t.now steps.now) }
{
    let mut elections = Elections {
        calls: 0,
        now: None,
    };
    for m in steps {
        elections = election_by(alloc, site, inc, t, elections, m)?;
    }
    Ok(elections.now)
}

// The step took an Elect.
fn is_elect(m: &Moment) -> bool
    ensures { result ≡ is_elect m.now }
{
    matches!(m.input, Input::Elect { .. })
}

fn count_elects(steps: &[Moment]) -> u64
    ensures counted { result ≡ count_by is_elect steps.now }
    ensures few { result ≤ length steps.now }
{
    let mut count = 0;
    for m in steps {
        if is_elect(m) {
            count += 1;
        }
    }
    count
}

/// The call of an Elect that comes now: the incarnation, and the count of Elects in it with this one.
pub fn next_call(inc: u32, steps: &[Moment]) -> Call
    requires { length steps.now < 4294967295 }
    ensures { result ≡ next_call inc steps.now }
{
    Call {
        inc,
        seq: number_behind(count_elects(steps)),
    }
}
