// What the two tables of locks answer to the same calls, of several modes and names. The transactions are numbered in the order in
// which they began: the first is the oldest.
//
// A line of the input is `locks` with what the case shows, who leaves behind the calls, and the calls, as 3sa: transaction 3
// asks for a shared lock on a; x for an exclusive lock, and r where a transaction leaves.
use crate::texts::{parts_of, push_txn, push_word, small, txn_of};
use e3_locks::{Granted, ListLocks, LockCall, LockTable, Locks, replay_locks};
use e3_report::Page;
use e3_types::{Grant, List, Mode, Name, NoMemory, SiteSet, Txn};
use std::alloc::Global;

// The names that are looked at behind the calls.
static NAMES: [&[u8]; 3] = [b"a", b"ab", b"b"];

// The transaction that begins as the n-th.
fn txn(seq: u32) -> Txn {
    txn_of(seq, SiteSet::one(1))
}

fn push_mode(page: &mut Page, mode: Mode) {
    match mode {
        Mode::Shared => push_word(page, "shared"),
        Mode::Exclusive => push_word(page, "exclusive"),
    }
}

// Adds how a lock's request is answered.
fn push_grant(page: &mut Page, grant: &Grant) {
    match grant {
        Grant::Held => push_word(page, "held"),
        Grant::Waits => push_word(page, "waits"),
        Grant::Dies { older } => {
            push_word(page, "dies for");
            push_txn(page, older);
        }
    }
}

// Adds a name behind a space.
fn push_name(page: &mut Page, name: &Name) {
    page.text(" ");
    page.bytes(name.bytes());
}

// Adds how these calls are answered.
fn push_grants<L: Locks>(alloc: Global, page: &mut Page, locks: &mut L, calls: &[LockCall]) {
    match replay_locks(alloc, locks, calls) {
        Ok(grants) => {
            for grant in grants.as_slice() {
                push_grant(page, grant);
            }
        }
        Err(NoMemory) => page.lack(),
    }
}

// Adds how the middle one of five transactions would be answered on each name, in each mode.
fn push_would<L: Locks>(page: &mut Page, locks: &L) {
    page.text("\n  asked by 1.1.3:");
    for bytes in &NAMES {
        if let Some(name) = Name::new(bytes) {
            push_name(page, &name);
            push_grant(page, &locks.would(txn(3), &name, Mode::Shared));
            push_grant(page, &locks.would(txn(3), &name, Mode::Exclusive));
        }
    }
}

// Adds for whom a transaction waits, if for any.
fn push_waits_of(page: &mut Page, waiter: &Txn, others: &[Txn]) {
    if others.is_empty() {
        return;
    }
    page.text("\n  ");
    page.txn(waiter);
    page.text(" waits for");
    for other in others {
        push_txn(page, other);
    }
}

// Adds for whom each transaction waits that waits for any.
fn push_waits<L: Locks>(page: &mut Page, locks: &L) {
    for seq in 1..6 {
        match locks.waits_for(txn(seq)) {
            Ok(others) => push_waits_of(page, &txn(seq), others.as_slice()),
            Err(NoMemory) => page.lack(),
        }
    }
}

fn push_granted(page: &mut Page, granted: &[Granted]) {
    for lock in granted {
        push_txn(page, &lock.txn);
        push_name(page, &lock.name);
        push_mode(page, lock.mode);
    }
}

// Adds what the leave of a transaction grants, and lets it leave.
fn push_leave<L: Locks>(page: &mut Page, locks: &mut L, leaver: u32) {
    page.labelled("\n  without 1.1.", u64::from(leaver));
    page.text(":");
    match locks.grants_after(txn(leaver)) {
        Ok(granted) => push_granted(page, granted.as_slice()),
        Err(NoMemory) => page.lack(),
    }
    locks.release(txn(leaver));
}

// Adds who holds the name.
fn push_holders<L: Locks>(page: &mut Page, locks: &L, name: &Name) {
    push_name(page, name);
    for seq in 1..6 {
        if let Some(mode) = locks.holds(txn(seq), name) {
            push_txn(page, &txn(seq));
            push_mode(page, mode);
        }
    }
}

// Adds who holds each name.
fn push_held<L: Locks>(page: &mut Page, locks: &L) {
    page.text("\n  held then:");
    for bytes in &NAMES {
        if let Some(name) = Name::new(bytes) {
            push_holders(page, locks, &name);
        }
    }
}

// How these calls are answered, what stands then, what the leave of a transaction grants, and who holds each name behind it.
fn answers<L: Locks + Drop>(alloc: Global, mut locks: L, calls: &[LockCall], leaver: u32) -> Page {
    let mut page = Page::new(alloc);
    push_grants(alloc, &mut page, &mut locks, calls);
    push_would(&mut page, &locks);
    push_waits(&mut page, &locks);
    push_leave(&mut page, &mut locks, leaver);
    push_held(&mut page, &locks);
    page
}

fn push_answers(page: &mut Page, label: &[u8], table: &str, answers: &Page) {
    page.text("locks, ");
    page.bytes(label);
    page.text(table);
    page.page(answers);
    page.text("\n");
}

// Adds what both tables answer to these calls and to the leave of a transaction behind them: once where they agree.
fn push_both(alloc: Global, page: &mut Page, label: &[u8], calls: &[LockCall], leaver: u32) {
    let Ok(table) = LockTable::new(alloc) else {
        return page.lack();
    };
    let table = answers(alloc, table, calls, leaver);
    let plain = answers(alloc, ListLocks::new(alloc), calls, leaver);
    if plain.as_slice() == table.as_slice() {
        push_answers(page, label, ", both tables:", &plain);
    } else {
        push_answers(page, label, ", in lists:", &plain);
        push_answers(page, label, ", by names:", &table);
    }
}

// The call that a word says, if it says one.
fn call_of(word: &[u8]) -> Option<LockCall> {
    let [seq, kind, rest @ ..] = word else {
        return None;
    };
    let txn = txn(u32::from(seq.saturating_sub(b'0')));
    if *kind == b'r' {
        return Some(LockCall::Release { txn });
    }
    let name = Name::new(rest)?;
    let is_shared = *kind == b's';
    let mode = if is_shared {
        Mode::Shared
    } else {
        Mode::Exclusive
    };
    Some(LockCall::Request { txn, name, mode })
}

fn calls_of(alloc: Global, page: &mut Page, words: &[u8]) -> List<LockCall> {
    let mut calls = List::new(alloc);
    let words = parts_of(alloc, page, words, b' ');
    for word in &words {
        if let Some(call) = call_of(word) {
            if calls.push(call).is_err() {
                page.lack();
            }
        }
    }
    calls
}

/// Adds the lines of a case.
pub fn push_case(alloc: Global, page: &mut Page, label: &[u8], pieces: &[&[u8]]) {
    if let [leaver, calls] = pieces {
        let calls = calls_of(alloc, page, calls);
        push_both(alloc, page, label, calls.as_slice(), small(leaver));
    }
}
