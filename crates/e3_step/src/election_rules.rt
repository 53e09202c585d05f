// What a site does in an election: it hears, joins, reports, and concludes.
ghost use Rattle.std.specs.Prelude.{◌≡◌, ◌&&◌, IfOk, MatchOption, suc, nat_le, nat_lt, if◌then◌else◌, true, false, Some};
ghost use Rattle.e3_types.specs.declared.messages.Message.TheVariants as msg;
ghost use Rattle.e3_world.specs.Making.{elected_now, may_decide, and_cast, and_decide};
ghost use Rattle.e3_world.specs.Elections.{all_heard, election_in_progress, greatest_heard};
ghost use Rattle.e3_world.specs.ElectionRules.{and_verdict, and_join, on_last, on_elected, on_report};

use crate::making::{
    Attempt, and_attempt, and_cast, and_decide, and_record, and_send, and_tell, attempt_now,
    cast_decision, elected_now, may_decide, state_now,
};
use crate::past::Past;
use e3_elect::Election;
use e3_rule::verdict_of;
use e3_types::{Call, Dir, Message, NoMemory, Record, SiteReport, SiteSet, Told, Txn, Verdict};
use e3_world::Made;

fn decide_for<P: Past>(
    p: &P,
    t: &Txn,
    dir: Dir,
    group: SiteSet,
    made: &mut Made,
) -> Result<(), NoMemory>
    ensures { IfOk result (λ u. made.new ≡ and_cast (P.at p.now) group (msg.Decide t.now dir)
        (if may_decide (P.at p.now) t.now dir made.old then and_decide (P.at p.now) t.now dir made.old else made.old)) }
{
    if may_decide(p, t, dir, made) {
        and_decide(p, t, dir, made)?;
    }
    cast_decision(p, group, t, dir, made)
}

/// The verdict over the reports of the whole group, told, and what it asks for.
pub fn and_verdict<P: Past>(
    p: &P,
    t: &Txn,
    n: u32,
    group: SiteSet,
    reports: &[SiteReport],
    made: &mut Made,
) -> Result<(), NoMemory>
    ensures { IfOk result (λ u. made.new ≡ and_verdict (P.at p.now) t.now n group reports.now made.old) }
{
    let verdict = verdict_of(p.weights(), t.sites, reports);
    and_tell(
        Told::Verdict {
            txn: *t,
            n,
            verdict,
        },
        made,
    )?;
    match verdict {
        Verdict::Abort => decide_for(p, t, Dir::Abort, group, made),
        Verdict::Commit => decide_for(p, t, Dir::Commit, group, made),
        Verdict::PreCommit => and_attempt(p, Attempt::new(t, n, Dir::Commit), group, made),
        Verdict::PreAbort => and_attempt(p, Attempt::new(t, n, Dir::Abort), group, made),
        Verdict::Block { .. } => Ok(()),
    }
}

// The number that the site joins, where the last that it joined is this one: that of the election, if it is above.
#[tactic(auto, using(crate::proofs::Joining::joins_above, crate::proofs::Joining::joins_low, crate::proofs::Joining::joins_none))]
fn number_above(e: &Election, elected: u32) -> Option<u32>
    ensures { MatchOption result ((all_heard e.now && nat_lt (greatest_heard e.now) 4294967295 && nat_le elected (greatest_heard e.now)) ≡ false)
        (λ n. ((all_heard e.now && nat_lt (greatest_heard e.now) 4294967295 && nat_le elected (greatest_heard e.now)) ≡ true) × (n ≡ suc (greatest_heard e.now))) }
{
    let n = e.number()?;
    if elected < n { Some(n) } else { None }
}

// The site joins under this number, one above the greatest of an election whose whole group was heard, where it is not below
// the last that the site joined.
fn join_under<P: Past>(
    p: &P,
    t: &Txn,
    n: u32,
    e: &Election,
    made: &mut Made,
) -> Result<(), NoMemory>
    requires may { (all_heard e.now && nat_lt (greatest_heard e.now) 4294967295 && nat_le (elected_now (P.at p.now) t.now made.old) (greatest_heard e.now)) ≡ true }
    requires number { n ≡ suc (greatest_heard e.now) }
    ensures { IfOk result (λ u. made.new ≡ and_join (P.at p.now) t.now e.now made.old) }
{
    let report = SiteReport {
        site: p.site(),
        state: state_now(p, t, made),
        attempt: attempt_now(p, t, made),
    };
    let group = e.group();
    and_record(Record::Join { txn: *t, n }, made)?;
    and_cast(p, group, &Message::Elected { txn: *t, n }, made)?;
    match group.without(p.site()).split_first() {
        None => and_verdict(p, t, n, group, &[report], made),
        Some(_) => Ok(()),
    }
}

/// The whole group was heard: the site joins the greatest number plus one, unless it is not above its own or too great.
pub fn and_join<P: Past>(p: &P, t: &Txn, e: &Election, made: &mut Made) -> Result<(), NoMemory>
    ensures { IfOk result (λ u. made.new ≡ and_join (P.at p.now) t.now e.now made.old) }
{
    match number_above(e, elected_now(p, t, made)) {
        Some(n) => join_under(p, t, n, e, made),
        None => Ok(()),
    }
}

// An answer of site f to the call of this election, the one in progress, which is borrowed.
fn hear_last<P: Past>(
    p: &P,
    f: u32,
    t: &Txn,
    call: Call,
    elected: u32,
    e: &mut Election,
    made: &mut Made,
) -> Result<(), NoMemory>
    requires { Some e.old ≡ election_in_progress (P.at p.now).site (P.at p.now).life.inc t.now (P.at p.now).life.steps }
    ensures { IfOk result (λ u. made.new ≡ on_last (P.at p.now) f t.now call elected made.old) }
{
    if e.heard(f, call, elected) {
        and_join(p, t, e, made)
    } else {
        Ok(())
    }
}

/// An answer of site f to the call of the election in progress: with the last one the site joins.
pub fn on_last<P: Past>(
    p: &P,
    f: u32,
    t: &Txn,
    call: Call,
    elected: u32,
    made: &mut Made,
) -> Result<(), NoMemory>
    ensures { IfOk result (λ u. made.new ≡ on_last (P.at p.now) f t.now call elected made.old) }
{
    match p.election(t)? {
        Some(mut e) => hear_last(p, f, t, call, elected, &mut e, made),
        None => Ok(()),
    }
}

/// A greater number, from site f: the site joins it and reports.
pub fn on_elected<P: Past>(p: &P, f: u32, t: &Txn, n: u32, made: &mut Made) -> Result<(), NoMemory>
    ensures { IfOk result (λ u. made.new ≡ on_elected (P.at p.now) f t.now n made.old) }
{
    if elected_now(p, t, made) < n {
        let report = Message::Report {
            txn: *t,
            n,
            state: state_now(p, t, made),
            attempt: attempt_now(p, t, made),
        };
        and_record(Record::Join { txn: *t, n }, made)?;
        and_send(p, f, report, made)
    } else {
        Ok(())
    }
}

// A report to the elector of this election, the one in progress, which is borrowed.
fn take_report<P: Past>(
    p: &P,
    t: &Txn,
    n: u32,
    report: SiteReport,
    e: &mut Election,
    made: &mut Made,
) -> Result<(), NoMemory>
    requires { Some e.old ≡ election_in_progress (P.at p.now).site (P.at p.now).life.inc t.now (P.at p.now).life.steps }
    ensures { IfOk result (λ u. made.new ≡ on_report (P.at p.now) t.now n report made.old) }
{
    if e.reported(n, report) && e.complete() {
        and_verdict(p, t, n, e.group(), e.reports(), made)
    } else {
        Ok(())
    }
}

/// A report to the elector: with the last one it has a verdict.
pub fn on_report<P: Past>(
    p: &P,
    t: &Txn,
    n: u32,
    report: SiteReport,
    made: &mut Made,
) -> Result<(), NoMemory>
    ensures { IfOk result (λ u. made.new ≡ on_report (P.at p.now) t.now n report made.old) }
{
    match p.election(t)? {
        Some(mut e) => take_report(p, t, n, report, &mut e, made),
        None => Ok(()),
    }
}
