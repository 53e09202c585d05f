// Compares the judge over tables with the plain one. The input has texts of scenarios, each before a line
// `##compare NAME`: the history of a run of it is judged by both, and each history that it becomes with one entry left out,
// doubled, or behind the next (with it twice). Prints of each scenario how many histories that were, how many of them are
// legal, and on how many the two judges say the same.
mod changes;
mod comparing;

use crate::playing::history_of;
use crate::texts::without_end;
use comparing::{Tally, compare_all};
use e3_report::Page;
use e3_scenario::read_scenario;
use std::alloc::Global;
use std::sync::Wait;
use std::thread::Threads;

// What both judges say of the run of the scenario of this text; none without memory, or where it spells no scenario.
fn tally_of<R: Wait + Threads + Sync>(rt: &R, alloc: Global, text: &[u8]) -> Option<Tally> {
    let scenario = read_scenario(alloc, text).ok()?;
    let history = history_of(rt, alloc, &scenario)?;
    compare_all(alloc, &scenario, &history).ok()
}

fn push_tally(page: &mut Page, tally: Tally) {
    page.labelled(": histories ", tally.compared);
    page.labelled(", legal ", tally.legal);
    page.labelled(", the judges say the same of ", tally.same);
    page.text("\n");
}

// Adds the line of a scenario.
fn push_row<R: Wait + Threads + Sync>(
    rt: &R,
    alloc: Global,
    page: &mut Page,
    name: &[u8],
    text: &Page,
) {
    page.bytes(without_end(name));
    if !text.is_whole() {
        page.lack();
    }
    match tally_of(rt, alloc, text.as_slice()) {
        Some(tally) => push_tally(page, tally),
        None => page.lack(),
    }
}

/// Adds all lines.
pub fn push_lines<R: Wait + Threads + Sync>(rt: &R, alloc: Global, page: &mut Page, given: &Page) {
    let input = page.part(alloc, given, "audits");
    let mut text = Page::new(alloc);
    for line in input.as_slice().split_inclusive(|byte| *byte == b'\n') {
        match line.strip_prefix(b"##compare ") {
            Some(name) => {
                push_row(rt, alloc, page, name, &text);
                text = Page::new(alloc);
            }
            None => text.bytes(line),
        }
    }
}
