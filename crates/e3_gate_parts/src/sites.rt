// Worked cases of what is read off logs and histories. The input has cases, each behind a line `#case KIND SITE NAME`: a
// scenario, and the trace of a history, which no run need have made.
//
// The kinds: `log`, whether records are the site's log, and the site of it; `bodies`, the steps of the site by its tables and
// by the definitions; `readings`, what is read off the site's log and steps; `step`, what the last step of a history makes;
// `history`, what is due and pending; `found`, two decisions that differ, and the order of the committed transactions; and
// `table`, the first rows of a site.

mod bodies;
mod histories;
mod logs;
mod readings;

use crate::cases::cases_in;
use crate::texts::{cut, number};
use e3_judge::Prefix;
use e3_report::Page;
use e3_scenario::read_scenario;
use e3_trace::{before_mark, read_trace};
use e3_types::Scenario;
use e3_world::History;
use std::alloc::Global;

// Adds the head of a case, and what is read of a history: the first letter of the head says what, and the second word at which
// site.
fn push_by(alloc: Global, page: &mut Page, head: &[u8], scenario: &Scenario, history: &History) {
    page.bytes(head);
    page.text(":");
    let (kind, rest) = cut(head, b' ');
    let (site, _) = cut(rest, b' ');
    let site = number(site).min(64) as u32;
    let entries = history.as_slice();
    let all = Prefix::of(alloc, scenario, entries);
    match kind.first() {
        Some(b'l') => logs::push_logs(alloc, page, entries, site),
        Some(b'b') => bodies::push_bodies(alloc, page, scenario, entries, site),
        Some(b'r') => readings::push_readings(alloc, page, &all, site),
        Some(b's') => histories::push_step(alloc, page, scenario, entries),
        Some(b'h') => histories::push_history(page, &all, site),
        Some(b'f') => histories::push_found(alloc, page, scenario, history),
        Some(b't') => histories::push_table(alloc, page, scenario, site),
        _ => page.text(" no kind"),
    }
    page.text("\n");
}

// Adds the lines of a case of this scenario.
fn push_told(alloc: Global, page: &mut Page, head: &[u8], scenario: &Scenario, text: &[u8]) {
    match read_trace(alloc, scenario, text) {
        Ok(history) => {
            push_by(alloc, page, head, scenario, &history);
            drop(history);
        }
        Err(_) => page.text("no trace\n"),
    }
}

// Adds the lines of a case.
fn push_case(alloc: Global, page: &mut Page, head: &[u8], text: &[u8]) {
    match read_scenario(alloc, before_mark(text)) {
        Ok(scenario) => {
            push_told(alloc, page, head, &scenario, text);
            drop(scenario);
        }
        Err(_) => page.text("no scenario\n"),
    }
}

/// Adds all lines.
pub fn push_lines(alloc: Global, page: &mut Page, given: &Page) {
    let input = page.part(alloc, given, "sites");
    let cases = cases_in(alloc, page, input.as_slice());
    for case in cases.as_slice() {
        push_case(alloc, page, case.name.as_slice(), case.text.as_slice());
    }
    drop(cases);
}
