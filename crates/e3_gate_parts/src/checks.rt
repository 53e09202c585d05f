// Verdicts on printed histories: the input has texts, each behind a line `#case NAME`, and each is checked. Its traces are those of
// worked scenarios, and some that were cut or changed. Printed are the name, the status, and the line that tells the verdict.
// Where the plain judge, asked beside it, finds anything else in the history, that is told too.

mod plain;

use crate::cases::{Case, cases_in};
use e3_report::Page;
use e3_trace::verdicts::check;
use e3_types::NoMemory;
use plain::plain_line;
use std::alloc::Global;

// Adds what the plain judge says of a text, where it is anything else.
fn push_other(alloc: Global, page: &mut Page, text: &[u8], told: &[u8]) {
    let line = plain_line(alloc, text);
    if !line.is_whole() {
        page.lack();
    }
    if !line.as_slice().is_empty() && line.as_slice() != told {
        page.text("  the plain judge: ");
        page.bytes(line.as_slice());
    }
}

// Adds the verdict on a text, and what the plain judge says where it is anything else.
fn push_verdict(alloc: Global, page: &mut Page, case: &Case) {
    match check(alloc, case.text.as_slice()) {
        Ok(checked) => {
            page.bytes(case.name.as_slice());
            page.labelled(": ", u64::from(checked.status));
            page.text(" ");
            page.bytes(checked.text.as_slice());
            push_other(alloc, page, case.text.as_slice(), checked.text.as_slice());
        }
        Err(NoMemory) => page.lack(),
    }
}

/// Adds the verdicts on all cases of the input.
pub fn push_lines(alloc: Global, page: &mut Page, given: &Page) {
    let input = page.part(alloc, given, "checks");
    let cases = cases_in(alloc, page, input.as_slice());
    for case in cases.as_slice() {
        push_verdict(alloc, page, case);
    }
    drop(cases);
}
