// A scenario cut behind each of its bytes: how each front of it is refused.
use crate::given::{Given, Ran, played};
use e3_report::Page;
use std::alloc::Global;
use std::sync::Wait;
use std::thread::Threads;

// Adds how a run ended: its status, the entries of its history, and what it wrote where that is one line.
fn push_ending(page: &mut Page, ran: &Ran) {
    page.labelled(": status ", u64::from(ran.ended.status));
    page.labelled(", entries ", ran.ended.history.len());
    if ran.ended.status == 2 {
        page.text(", ");
        page.bytes(ran.sink.written());
    } else {
        page.text("\n");
    }
}

// How a run of this front ends.
fn ending<R: Wait + Threads + Sync>(rt: &R, alloc: Global, front: &[u8]) -> Page {
    let mut end = Page::new(alloc);
    match played(rt, alloc, &Given::of(front)) {
        Some(ran) => push_ending(&mut end, &ran),
        None => end.lack(),
    }
    end
}

// Adds the line of fronts of neighbouring lengths that end alike.
fn push_range(page: &mut Page, from: usize, to: usize, ending: &Page) {
    page.labelled("the first ", from as u64);
    if from < to {
        page.labelled(" to ", to as u64);
    }
    page.text(" bytes");
    page.page(ending);
}

/// Adds a line for each range of lengths whose fronts of the scenario end alike, from none to all of its bytes.
pub fn push_fronts<R: Wait + Threads + Sync>(rt: &R, alloc: Global, page: &mut Page, text: &[u8]) {
    let mut from = 0;
    let mut to = 0;
    let mut last = ending(rt, alloc, b"");
    for len in 1..=text.len() {
        let end = ending(rt, alloc, text.get(..len).unwrap_or(text));
        if !end.is_whole() {
            page.lack();
        }
        if end.as_slice() != last.as_slice() {
            push_range(page, from, to, &last);
            from = len;
        }
        last = end;
        to = len;
    }
    push_range(page, from, to, &last);
}
