// The values of which all is made: sets of sites, the age of transactions, names, values, lists and their copies, fronts of
// queues, the generator's words, and histories.
//
// Lines of the input: `is KIND`, and pieces that are sets of sites, names or values in digits, or transactions of the sites 1
// and 2; `order below` or `order above`, and sets that are to come before the one ahead of them, or behind it; and `value WHAT`.
use crate::texts::{
    numbers_of, push_count, push_flag, push_known, push_text, set_of, spelled_by, triple, txn_of,
};
use e3_locks::front;
use e3_report::Page;
use e3_types::{Act, Copied, Entry, List, Lock, Mode, Name, NoMemory, Record, SiteSet, Txn, Val};
use e3_world::{History, fate_word};
use std::alloc::Global;

// Whether a word is one of its kind.
fn is_one(alloc: Global, page: &mut Page, kind: u8, word: &[u8]) -> bool {
    let (site, inc, seq) = triple(word);
    match kind {
        b'n' => Name::new(spelled_by(alloc, page, word).as_slice()).is_some(),
        b'v' => Val::new(spelled_by(alloc, page, word).as_slice()).is_some(),
        b's' => SiteSet::of(numbers_of(alloc, page, word).as_slice()).is_some(),
        _ => Txn::new(site, inc, seq, SiteSet::one(1).with(2)).is_some(),
    }
}

/// Adds which words of a line are of its kind.
pub fn push_are(alloc: Global, page: &mut Page, kind: u8, pieces: &[&[u8]]) {
    for piece in pieces {
        if !push_text(page, piece) {
            let is_one = is_one(alloc, page, kind, piece);
            push_flag(page, is_one);
        }
    }
    page.text("\n");
}

/// Adds which of these sets comes before the one that stands ahead of it here, or which behind it.
pub fn push_order(alloc: Global, page: &mut Page, is_above: bool, pieces: &[&[u8]]) {
    let mut before = SiteSet::empty();
    for piece in pieces {
        if !push_text(page, piece) {
            let set = set_of(alloc, page, piece);
            push_flag(page, if is_above { before < set } else { set < before });
            before = set;
        }
    }
    page.text("\n");
}

// Adds how many sites the greatest set has, and whether it is the set of their list.
fn push_all_sites(alloc: Global, page: &mut Page) {
    let all = SiteSet::of_bits(u64::MAX);
    match all.list(alloc) {
        Ok(list) => {
            page.labelled("sites of all bits: ", list.len());
            let listed = SiteSet::of(list.as_slice()).unwrap_or(SiteSet::empty());
            push_flag(page, listed.is_same(all));
            page.text("\n");
        }
        Err(NoMemory) => page.lack(),
    }
}

// Adds how each of these transactions stands to each: whether it is older, by its method and by the order of values.
fn push_ages(page: &mut Page) {
    let one = SiteSet::one(1);
    let rising = [
        txn_of(1, one),
        txn_of(1, one.with(2)),
        txn_of(2, one),
        Txn {
            inc: 2,
            ..txn_of(1, one)
        },
        Txn {
            site: 2,
            ..txn_of(1, SiteSet::one(2))
        },
    ];
    for first in &rising {
        page.text("older than each:");
        for second in &rising {
            push_flag(page, first.is_older(second));
            push_flag(page, *first < *second);
        }
        page.text("\n");
    }
}

// Adds whether a copy is the same record.
fn push_copy(alloc: Global, page: &mut Page) {
    page.text(", a record's copy");
    match (Record::Inc { inc: 1 }).copied(alloc) {
        Ok(copy) => push_flag(page, matches!(copy, Record::Inc { inc: 1 })),
        Err(NoMemory) => page.lack(),
    }
    page.text("\n");
}

// Adds a list of three numbers, and whether there is no memory for a list that is too long.
fn push_list(alloc: Global, page: &mut Page) {
    let mut list = List::new(alloc);
    if list.push(7u64).is_err() || list.extend(&[8, 9]).is_err() {
        page.lack();
    }
    page.text("a list:");
    for number in list.as_slice() {
        page.labelled(" ", *number);
    }
    page.text(", without memory");
    push_flag(page, list.reserve(u64::MAX).is_err());
    push_copy(alloc, page);
}

// The request of the transaction that began as the n-th.
fn lock(seq: u32, mode: Mode) -> Lock {
    let txn = txn_of(seq, SiteSet::one(1));
    Lock { txn, mode }
}

// Adds how many of three requests come to the front where none is held: shared ones all, exclusive ones of one transaction.
fn push_front(alloc: Global, page: &mut Page, mode: Mode) {
    let queue = [lock(1, mode), lock(1, mode), lock(2, mode)];
    push_count(page, "a front of ", front(alloc, &[], &queue));
    page.text("\n");
}

// A history of three lines, of the owners 1, 0 and 1.
fn three_lines(alloc: Global) -> Result<History, NoMemory> {
    let mut history = History::new(alloc);
    for number in 1..4u32 {
        history.reserve(1)?;
        history.push(Entry {
            owner: number % 2,
            act: Act::Line { number },
        });
    }
    Ok(history)
}

// The number of the driver's line at a place, if one is there.
fn line_at(history: &History, at: u64) -> Option<u32> {
    match history.entry(at) {
        Some(
            Entry {
                act: Act::Line { number },
                ..
            },
        ) => Some(*number),
        _ => None,
    }
}

// Adds its entries, those of site 1, and the line at each place.
fn push_entries(page: &mut Page, history: &History) {
    page.labelled("entries ", history.len());
    page.labelled(", of site 1 ", history.own_count(1));
    page.text(", lines");
    for at in 0..4 {
        push_known(page, line_at(history, at));
    }
    page.text("\n");
}

// Adds the lines of a history.
fn push_history(alloc: Global, page: &mut Page) {
    match three_lines(alloc) {
        Ok(history) => push_entries(page, &history),
        Err(NoMemory) => page.lack(),
    }
}

/// Adds what this letter names: bits, ages, a list, a shared or an exclusive front, a history, or a word of the generator. The
/// generator's published demonstration has the first word 2,707,161,783 for 42 on the stream 54.
pub fn push_shown(alloc: Global, page: &mut Page, what: u8) {
    match what {
        b'b' => push_all_sites(alloc, page),
        b'a' => push_ages(page),
        b'l' => push_list(alloc, page),
        b's' => push_front(alloc, page, Mode::Shared),
        b'e' => push_front(alloc, page, Mode::Exclusive),
        b'h' => push_history(alloc, page),
        _ => {
            page.labelled("the first word of 42 on 54: ", u64::from(fate_word(42, 54)));
            page.text("\n");
        }
    }
}
