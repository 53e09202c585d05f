// Worked cases of texts, which stand in the input: texts of scenarios, with the line of the fault of each; and a scenario with the
// trace of a history that has each form, whose report and trace are printed.

pub mod scenarios;

use crate::texts::{cut, parts_of};
use e3_report::{Page, report};
use e3_scenario::read_scenario;
use e3_trace::{before_mark, read_trace};
use e3_types::{NoMemory, Scenario};
use e3_world::History;
use std::alloc::Global;

// Adds the report, and the trace, of a history.
fn push_history(alloc: Global, page: &mut Page, scenario: &Scenario, history: &History) {
    match report(alloc, scenario, history, true) {
        Ok(text) => page.bytes(text.as_slice()),
        Err(NoMemory) => page.lack(),
    }
}

// Adds the report, and the trace, of a scenario and of the history whose trace stands in the input.
fn push_told(alloc: Global, page: &mut Page, input: &[u8], scenario: &Scenario) {
    match read_trace(alloc, scenario, input) {
        Ok(history) => {
            push_history(alloc, page, scenario, &history);
            drop(history);
        }
        Err(_) => page.text("no trace\n"),
    }
}

// Adds the report, and the trace, of the scenario on this line and of the history whose trace stands in the input.
fn push_report(alloc: Global, page: &mut Page, input: &[u8], line: &[u8]) {
    match read_scenario(alloc, scenarios::text_of(alloc, line).as_slice()) {
        Ok(scenario) => {
            push_told(alloc, page, input, &scenario);
            drop(scenario);
        }
        Err(_) => page.text("no scenario\n"),
    }
}

// Adds the lines of a case: the first letter of the line says what is done with what stands behind its first word.
fn push_case(alloc: Global, page: &mut Page, input: &[u8], line: &[u8]) {
    let (word, rest) = cut(line, b' ');
    match word.first() {
        Some(b't') => scenarios::push_line(alloc, page, rest),
        Some(b's') => scenarios::push_steps(alloc, page, rest),
        Some(b'l') => scenarios::push_limit(alloc, page, rest),
        Some(b'b') => scenarios::push_begins(alloc, page, rest),
        Some(b'f') => scenarios::push_fronts(alloc, page, rest),
        Some(b'p') => scenarios::push_parts(alloc, page, rest),
        Some(b'r') => push_report(alloc, page, input, rest),
        _ => page.text("no case\n"),
    }
}

/// Adds all lines.
pub fn push_lines(alloc: Global, page: &mut Page, given: &Page) {
    let input = page.part(alloc, given, "forms");
    let cases = before_mark(input.as_slice());
    let cases = cases.strip_suffix(b"\n").unwrap_or(cases);
    let lines = parts_of(alloc, page, cases, b'\n');
    for line in &lines {
        push_case(alloc, page, input.as_slice(), line);
    }
}
