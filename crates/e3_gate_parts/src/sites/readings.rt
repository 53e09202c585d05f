// What is read off the log and the steps of a site, of each transaction that was begun.
ghost use Rattle.std.specs.Prelude.{◌<◌, length};

use crate::texts::{push_count, txn_of};
use e3_judge::Prefix;
use e3_readings::*;
use e3_report::Page;
use e3_types::{Act, Entry, List, Mode, Name, NoMemory, Record, Row, SiteSet, Told, Txn};
use e3_world::{Incarnation, Life, Moment};
use std::alloc::Global;

// Adds whether something holds behind its label.
fn push_flag(page: &mut Page, label: &str, holds: bool) {
    page.text(label);
    page.text(if holds { "true" } else { "false" });
}

fn told_of(entry: &Entry) -> &[Told] {
    match &entry.act {
        Act::Step { told, .. } => told.as_slice(),
        _ => &[],
    }
}

// Adds what a log says of a transaction.
fn push_logged(page: &mut Page, t: &Txn, log: &[Record]) {
    page.txn(t);
    page.labelled(": elected ", u64::from(last_elected(t, log)));
    page.labelled(", attempt ", u64::from(last_attempt(t, log)));
    push_flag(page, ", voted ", has_voted(t, log));
    push_flag(page, ", undecided ", is_undecided(t, log));
    page.text(", state ");
    page.state(state_of(t, log));
}

// Adds how many operations of a transaction were issued and done, how many reasons are kept for its end, and the operation that
// is not answered.
fn push_operations(alloc: Global, page: &mut Page, site: u32, t: &Txn, life: &Life)
    requires { length life.now.steps < 4294967295 }
{
    let steps = life.steps.as_slice();
    push_count(page, ", issued ", issued(alloc, t, steps));
    push_count(page, ", done ", done(alloc, site, t, steps));
    push_count(page, ", kept reasons ", kept_reason(alloc, t, steps));
    match unanswered(alloc, t, life.log.as_slice(), life.steps.as_slice()) {
        Ok(Some(n)) => page.labelled(", unanswered ", u64::from(n)),
        Ok(None) => page.text(", all answered"),
        Err(NoMemory) => page.lack(),
    }
}

// Adds what is expected of a site.
fn push_expected(alloc: Global, page: &mut Page, site: u32, t: &Txn, life: &Life, other: u32)
    requires { length life.now.steps < 4294967295 }
{
    let Ok(of) = expected(alloc, site, life.inc, t, life.steps.as_slice(), other) else {
        return page.lack();
    };
    page.labelled(", of site ", u64::from(other));
    page.labelled(" incarnation ", u64::from(of.inc));
    page.labelled(" count ", u64::from(of.count));
}

// Adds what an elector has heard, where an election is in progress.
fn push_election(alloc: Global, page: &mut Page, site: u32, t: &Txn, life: &Life)
    requires { length life.now.steps < 4294967295 }
{
    match election_in_progress(alloc, site, life.inc, t, life.steps.as_slice()) {
        Ok(Some(e)) => {
            page.labelled("; election ", u64::from(e.joined_number().unwrap_or(0)));
            push_flag(page, ", all heard ", e.all_heard());
            push_flag(page, ", all reported ", e.complete());
            page.labelled(", greatest ", u64::from(e.greatest_heard()));
            page.labelled(", reports ", e.reports().len() as u64);
        }
        Ok(None) => {}
        Err(NoMemory) => page.lack(),
    }
}

// Adds the round that an attempt began, where there is one, and how many votes are missing, where votes are gathered.
fn push_gathered(page: &mut Page, site: u32, t: &Txn, steps: &[Moment]) {
    if let Some(r) = round_in_progress(site, t, steps) {
        page.labelled("; round ", u64::from(r.number()));
        page.labelled(", acknowledged ", r.arrivals().len() as u64);
        page.labelled(" of ", u64::from(r.receivers().count()));
        page.text(", to ");
        page.dir(r.direction());
    }
    if let Some(votes) = votes_in(site, t, steps) {
        page.labelled("; votes missing ", u64::from(votes.missing().count()));
    }
}

// Adds all that is read of a transaction.
fn push_of(alloc: Global, page: &mut Page, site: u32, t: &Txn, life: &Life)
    requires { length life.now.steps < 4294967295 }
{
    push_operations(alloc, page, site, t, life);
    push_expected(alloc, page, site, t, life, 1);
    push_expected(alloc, page, site, t, life, 2);
    push_election(alloc, page, site, t, life);
    push_gathered(page, site, t, life.steps.as_slice());
    page.text("\n");
}

// Adds the lock that a transaction holds on a name.
fn push_held(alloc: Global, page: &mut Page, site: u32, t: &Txn, life: &Life, name: &Name)
    requires { length life.now.steps < 4294967295 }
{
    let log = life.log.as_slice();
    match holds(alloc, site, t, name, log, life.steps.as_slice()) {
        Ok(Some(Mode::Exclusive)) => page.text(", holds an exclusive lock\n"),
        Ok(Some(Mode::Shared)) => page.text(", holds a shared lock\n"),
        Ok(None) => page.text(", holds no lock\n"),
        Err(NoMemory) => page.lack(),
    }
}

// Adds the row of a name, how many locks votes have on it, and the lock that the first transaction holds.
fn push_row(alloc: Global, page: &mut Page, site: u32, life: &Life, table: &[Row], name: &Name)
    requires { length life.now.steps < 4294967295 }
{
    page.bytes(name.bytes());
    page.text(" is ");
    page.answer(&row_value(name, table));
    let locks = voted_locks(alloc, name, life.log.as_slice());
    push_count(page, ", locks of votes ", locks);
    push_held(
        alloc,
        page,
        site,
        &txn_of(1, SiteSet::one(1).with(2)),
        life,
        name,
    );
}

// Adds the row of each of three names, and the table.
fn push_names(alloc: Global, page: &mut Page, site: u32, life: &Life, table: &[Row])
    requires { length life.now.steps < 4294967295 }
{
    for text in [b"a", b"b", b"c"] {
        match Name::new(text) {
            Some(name) => push_row(alloc, page, site, life, table, &name),
            None => page.lack(),
        }
    }
    page.rows(table);
}

// Adds what a life says of no single transaction.
fn push_life(alloc: Global, page: &mut Page, site: u32, life: &Life)
    requires { length life.now.steps < 4294967295 }
{
    let (log, steps) = (life.log.as_slice(), life.steps.as_slice());
    page.labelled(" incarnation ", u64::from(life.inc));
    page.labelled(", log ", life.log.len());
    page.labelled(", steps ", life.steps.len());
    push_count(page, ", arrived ", arrivals(alloc, site, steps));
    push_count(page, ", waiting ", waiting(alloc, site, log, steps));
    let next = next_call(life.inc, steps);
    page.labelled(", next call ", u64::from(next.inc));
    page.labelled(" ", u64::from(next.seq));
    page.text("\n");
}

// Adds what is read off a life, of each transaction that the history tells as begun, and off the log at present.
fn push_read(
    alloc: Global,
    page: &mut Page,
    site: u32,
    life: &Life,
    log: &[Record],
    history: &[Entry],
)
    requires { length life.now.steps < 4294967295 }
{
    push_life(alloc, page, site, life);
    for entry in history {
        if let [Told::Began { txn }] = told_of(entry) {
            push_logged(page, txn, log);
            push_of(alloc, page, site, txn, life);
        }
    }
    match table_of(alloc, log) {
        Ok(table) => push_names(alloc, page, site, life, table.as_slice()),
        Err(NoMemory) => page.lack(),
    }
}

// Adds the same of a life of few steps.
fn push_few(
    alloc: Global,
    page: &mut Page,
    site: u32,
    life: &Life,
    log: &[Record],
    history: &[Entry],
) {
    if life.steps.len() < 4294967295 {
        push_read(alloc, page, site, life, log, history);
    } else {
        page.lack();
    }
}

// Adds what is read off an incarnation.
fn push_incarnation(
    alloc: Global,
    page: &mut Page,
    now: &Incarnation,
    history: &[Entry],
    site: u32,
) {
    let (rose, since) = (now.rose.as_slice(), now.since.as_slice());
    let Ok(log) = present_log(alloc, rose, since) else {
        return page.lack();
    };
    page.labelled(" present log ", log.len());
    page.labelled(" of incarnation ", u64::from(logged_inc(log.as_slice())));
    page.text(",");
    match life_of(alloc, rose, since) {
        Ok(life) => {
            push_few(alloc, page, site, &life, log.as_slice(), history);
            drop(life);
        }
        Err(NoMemory) => page.lack(),
    }
}

/// Adds what is read off the present incarnation of a site.
pub fn push_readings(alloc: Global, page: &mut Page, all: &Prefix<'_>, site: u32) {
    match all.incarnation_at(site) {
        Ok(now) => {
            push_incarnation(alloc, page, &now, all.entries, site);
            drop(now);
        }
        Err(NoMemory) => page.lack(),
    }
}
