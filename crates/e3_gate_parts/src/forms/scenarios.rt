// Texts of scenarios: the line of the fault of each, and what is read. A text stands on one line, with a semicolon for each line
// feed.
use crate::texts::{cut, number};
use e3_report::Page;
use e3_scenario::{ScenarioFault, fault_line, read_scenario};
use e3_types::{NoMemory, Scenario};
use std::alloc::Global;

/// The text of a line, with a line feed for each semicolon.
pub fn text_of(alloc: Global, line: &[u8]) -> Page {
    let mut text = Page::new(alloc);
    for byte in line {
        text.bytes(&[if *byte == b';' { b'\n' } else { *byte }]);
    }
    text
}

// Adds the line of a fault.
fn push_fault_line(alloc: Global, page: &mut Page, fault: &ScenarioFault) {
    match fault_line(alloc, fault) {
        Ok(line) => page.bytes(line.as_slice()),
        Err(NoMemory) => page.lack(),
    }
}

// Adds `valid`, or the line of the fault that a text has.
fn push_fault(alloc: Global, page: &mut Page, text: &Page) {
    if !text.is_whole() {
        page.lack();
    }
    page.text(": ");
    match read_scenario(alloc, text.as_slice()) {
        Ok(scenario) => {
            drop(scenario);
            page.text("valid\n");
        }
        Err(fault) => push_fault_line(alloc, page, &fault),
    }
}

/// Adds a text and its line.
pub fn push_line(alloc: Global, page: &mut Page, line: &[u8]) {
    page.bytes(line);
    push_fault(alloc, page, &text_of(alloc, line));
}

/// Adds steps of three sites, and the line of the scenario that has them.
pub fn push_steps(alloc: Global, page: &mut Page, steps: &[u8]) {
    page.bytes(steps);
    let mut text = Page::new(alloc);
    text.text("weights = [1, 1, 1]\nsteps = [");
    text.bytes(steps);
    text.text("]");
    push_fault(alloc, page, &text);
}

// Adds the line of a text that is a front, a piece so many times, and a back.
fn push_repeated(
    alloc: Global,
    page: &mut Page,
    front: &[u8],
    piece: &[u8],
    back: &[u8],
    count: u64,
) {
    page.labelled("", count);
    page.text(" times ");
    page.bytes(piece);
    let mut text = text_of(alloc, front);
    for _ in 0..count {
        text.bytes(piece);
    }
    text.page(&text_of(alloc, back));
    push_fault(alloc, page, &text);
}

/// Adds the lines of a text at its limit, and with one piece more. The four parts of the line are the most pieces, what stands
/// before them, a piece, and what stands behind them.
pub fn push_limit(alloc: Global, page: &mut Page, line: &[u8]) {
    let (most, rest) = cut(line, b'|');
    let (front, rest) = cut(rest, b'|');
    let (piece, back) = cut(rest, b'|');
    let most = number(most);
    for count in [most, most.saturating_add(1)] {
        push_repeated(alloc, page, front, piece, back, count);
    }
}

/// Adds the line of a scenario whose steps are so many begins of different names, behind one step.
pub fn push_begins(alloc: Global, page: &mut Page, line: &[u8]) {
    let count = number(line);
    page.labelled("begins ", count);
    let mut text = Page::new(alloc);
    text.text("weights = [1]\nsteps = [\"merge\"");
    for name in 0..count {
        text.labelled(", \"begin n", name);
        text.text(" 1 1\"");
    }
    text.text("]");
    push_fault(alloc, page, &text);
}

// How many of the fronts of a text are no scenario.
fn count_refused(alloc: Global, text: &[u8]) -> u64 {
    let mut refused = 0u64;
    for length in 0..text.len() {
        let front = text.get(..length).unwrap_or(text);
        let read = read_scenario(alloc, front);
        if read.is_err() {
            refused = refused.saturating_add(1);
        }
        drop(read);
    }
    refused
}

/// Adds how many of the fronts of a text are no scenario, and whether the whole text is one.
pub fn push_fronts(alloc: Global, page: &mut Page, line: &[u8]) {
    let text = text_of(alloc, line);
    let bytes = text.as_slice();
    page.labelled("refused fronts ", count_refused(alloc, bytes));
    page.labelled(" of ", bytes.len() as u64);
    push_fault(alloc, page, &text);
}

/// Adds the parts of a scenario but its steps: its weights, its rows and its chances.
pub fn push_head(page: &mut Page, scenario: &Scenario) {
    for weight in scenario.weights.as_slice() {
        page.labelled("weight ", u64::from(*weight));
        page.text("\n");
    }
    for row in scenario.rows.as_slice() {
        page.text("row ");
        page.key(&row.key);
        page.text(" ");
        page.bytes(row.val.bytes());
        page.text("\n");
    }
    page.labelled("loss ", u64::from(scenario.loss));
    page.labelled(", repeat ", u64::from(scenario.repeat));
    page.labelled(", luck ", scenario.luck);
    page.text("\n");
}

// Adds the parts of a scenario.
fn push_read(page: &mut Page, scenario: &Scenario) {
    push_head(page, scenario);
    for items in scenario.steps.as_slice() {
        page.items(items.as_slice());
    }
}

/// Adds the parts of the scenario that a text spells.
pub fn push_parts(alloc: Global, page: &mut Page, line: &[u8]) {
    match read_scenario(alloc, text_of(alloc, line).as_slice()) {
        Ok(scenario) => {
            push_read(page, &scenario);
            drop(scenario);
        }
        Err(_) => page.text("refused\n"),
    }
}
