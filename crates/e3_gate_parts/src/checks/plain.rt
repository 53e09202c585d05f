// What the plain judge finds in a text, told as a verdict is.
use e3_judge::{is_whole, judge};
use e3_report::Page;
use e3_scenario::read_scenario;
use e3_trace::{before_mark, read_trace};
use e3_types::{NoMemory, Scenario};
use e3_world::History;
use std::alloc::Global;

// Adds that a history is legal, and whether it is whole.
fn push_legal(alloc: Global, line: &mut Page, scenario: &Scenario, history: &History) {
    line.labelled("legal ", history.len());
    match is_whole(alloc, scenario, history) {
        Ok(true) => line.text(" whole"),
        Ok(false) => {}
        Err(NoMemory) => line.lack(),
    }
}

// Adds what the plain judge finds in a history.
fn push_found(alloc: Global, line: &mut Page, scenario: &Scenario, history: &History) {
    match judge(alloc, scenario, history) {
        Ok(Some(breach)) => {
            line.labelled("illegal ", breach.at);
            line.text(" ");
            line.text(breach.guard.word());
        }
        Ok(None) => push_legal(alloc, line, scenario, history),
        Err(NoMemory) => line.lack(),
    }
    line.text("\n");
}

// Adds what the plain judge finds in the trace of a text, if it has one.
fn push_traced(alloc: Global, line: &mut Page, scenario: &Scenario, text: &[u8]) {
    if let Ok(history) = read_trace(alloc, scenario, text) {
        push_found(alloc, line, scenario, &history);
        drop(history);
    }
}

/// The line that tells what the plain judge finds; an empty one where there is no scenario, or no trace.
pub fn plain_line(alloc: Global, text: &[u8]) -> Page {
    let mut line = Page::new(alloc);
    if let Ok(scenario) = read_scenario(alloc, before_mark(text)) {
        push_traced(alloc, &mut line, &scenario, text);
        drop(scenario);
    }
    line
}
