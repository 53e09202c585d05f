// What is due in a history, what its last step makes, what is found in it, and the rows of a site.
use crate::texts::{push_count, push_txn};
use e3_judge::{Prefix, clash, order, turn_of};
use e3_readings::rows_at;
use e3_report::Page;
use e3_step::plain::unnumbered_input;
use e3_types::{Act, Copied, Entry, Input, KeyRow, List, NoMemory, Row, Scenario};
use e3_world::History;
use std::alloc::Global;
use std::slice;

// Adds the packet that an input delivers, without its number.
fn push_unnumbered(page: &mut Page, input: &Input) {
    if let Input::Deliver { packet } = unnumbered_input(input) {
        page.labelled(" unnumbered packet: number ", packet.number);
        page.labelled(" from ", u64::from(packet.from));
    }
    page.text("\n");
}

// Adds the entry that the definitions make of an input behind a history.
fn push_made(page: &mut Page, before: &Prefix<'_>, owner: u32, input: &Input) {
    match before.entry_of(owner, input) {
        Ok(entry) => {
            page.trace(slice::from_ref(&entry));
            drop(entry);
        }
        Err(NoMemory) => page.lack(),
    }
}

/// Adds the last step of a history as the definitions make it of its input, and the packet that it takes, without its number.
pub fn push_step(alloc: Global, page: &mut Page, scenario: &Scenario, history: &[Entry]) {
    let Some((last, before)) = history.split_last() else {
        return page.text(" no entry");
    };
    let Act::Step { input, .. } = &last.act else {
        return page.text(" no step");
    };
    push_unnumbered(page, input);
    push_made(
        page,
        &Prefix::of(alloc, scenario, before),
        last.owner,
        input,
    );
}

// Adds the round that is due.
fn push_due(page: &mut Page, prefix: &Prefix<'_>) {
    match prefix.due_round() {
        Ok(Some(round)) => {
            page.text(", round");
            push_txn(page, &round.txn);
            page.labelled(" by ", u64::from(round.elector));
            page.text(" of ");
            page.sites(round.members);
        }
        Ok(None) => page.text(", no round"),
        Err(NoMemory) => page.lack(),
    }
}

// Adds how many items and steps a site took.
fn push_taken(page: &mut Page, prefix: &Prefix<'_>, site: u32) {
    match turn_of(prefix.entries, site) {
        Ok(turn) => page.labelled(", items taken ", turn),
        Err(NoMemory) => page.lack(),
    }
    match prefix.incarnation_at(site) {
        Ok(now) => {
            page.labelled(", steps ", now.since.len());
            drop(now);
        }
        Err(NoMemory) => page.lack(),
    }
}

/// Adds how many packets are pending, how many items and steps a site took, and the round that is due.
pub fn push_history(page: &mut Page, all: &Prefix<'_>, site: u32) {
    push_count(page, " pending ", all.pending());
    push_taken(page, all, site);
    push_due(page, all);
}

/// Adds the transaction that is decided both ways, and those that count as run, in their order.
pub fn push_found(alloc: Global, page: &mut Page, scenario: &Scenario, history: &History) {
    page.text(" decided both ways");
    match clash(alloc, scenario, history) {
        Ok(Some(txn)) => push_txn(page, &txn),
        Ok(None) => page.text(" -"),
        Err(NoMemory) => page.lack(),
    }
    page.text(", order");
    match order(alloc, scenario, history) {
        Ok(order) => {
            for t in order.as_slice() {
                push_txn(page, t);
            }
        }
        Err(NoMemory) => page.lack(),
    }
}

// The rows of a scenario, and behind them all names once more with the value of the last, which changes nothing.
fn rows_twice(alloc: Global, scenario: &Scenario) -> Result<List<KeyRow>, NoMemory> {
    let mut rows = scenario.rows.copied(alloc)?;
    if let Some(last) = scenario.rows.as_slice().last() {
        for row in scenario.rows.as_slice() {
            let key = row.key.copy();
            let again = KeyRow {
                key,
                val: last.val.copy(),
            };
            rows.push(again)?;
        }
    }
    Ok(rows)
}

fn table_of(alloc: Global, scenario: &Scenario, site: u32) -> Result<List<Row>, NoMemory> {
    rows_at(alloc, site, rows_twice(alloc, scenario)?.as_slice())
}

/// Adds the rows of a site among those of a scenario, in order of their names.
pub fn push_table(alloc: Global, page: &mut Page, scenario: &Scenario, site: u32) {
    page.text("\n");
    match table_of(alloc, scenario, site) {
        Ok(table) => page.rows(table.as_slice()),
        Err(NoMemory) => page.lack(),
    }
}
