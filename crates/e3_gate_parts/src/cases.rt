// Texts of the input, each with a name: `#case NAME` and a text; or `#case NAME` and `#of BASE LINE NEXT`, and lines: that is the text
// of an earlier case, in whose trace these lines stand in place of those from LINE on and before NEXT. Lines of a trace are counted
// from 1 behind `#trace`.

use crate::texts::{cut, lines_of, number};
use e3_report::Page;
use e3_types::List;
use std::alloc::Global;

/// A text, and its name.
#[derive(Drop)]
pub struct Case {
    pub name: Page,
    pub text: Page,
}

// The text of the case with this name; none where there is no such case.
fn text_of<'a>(cases: &'a [Case], name: &[u8]) -> &'a [u8] {
    for case in cases {
        if case.name.as_slice() == name {
            return case.text.as_slice();
        }
    }
    b""
}

// Adds the lines of a text from a line of its trace on and before the next; what stands before the trace counts as line 0.
fn push_lines(out: &mut Page, lines: &[&[u8]], from: u64, next: u64) {
    let mut at: u64 = 0;
    for line in lines {
        if from <= at && at < next {
            out.bytes(line);
        }
        if at > 0 || *line == b"#trace\n".as_slice() {
            at = at.saturating_add(1);
        }
    }
}

// Adds the text that a change makes of the text of an earlier case.
fn push_changed(alloc: Global, out: &mut Page, cases: &[Case], change: &[u8]) {
    let (words, lines) = cut(change, b'\n');
    let (base, words) = cut(words, b' ');
    let (line, next) = cut(words, b' ');
    let all = lines_of(alloc, out, text_of(cases, base));
    push_lines(out, &all, 0, number(line));
    out.bytes(lines);
    push_lines(out, &all, number(next), u64::MAX);
}

// The text of a case, by what stands behind its first line, and the cases before it.
fn told(alloc: Global, cases: &[Case], text: &[u8]) -> Page {
    let mut out = Page::new(alloc);
    match text.strip_prefix(b"#of ") {
        Some(change) => push_changed(alloc, &mut out, cases, change),
        None => out.bytes(text),
    }
    out
}

// The case that these lines tell, behind the cases before it.
fn case_of(alloc: Global, cases: &[Case], lines: &[u8]) -> Case {
    let (head, text) = cut(lines, b'\n');
    let mut name = Page::new(alloc);
    name.bytes(head.strip_prefix(b"#case ").unwrap_or(head));
    let text = told(alloc, cases, text);
    Case { name, text }
}

// Adds the case that these lines tell, and notes on the page where memory was lacking for it.
fn push_case(alloc: Global, page: &mut Page, cases: &mut List<Case>, lines: &Page) {
    let case = case_of(alloc, cases.as_slice(), lines.as_slice());
    let is_whole = lines.is_whole() && case.name.is_whole() && case.text.is_whole();
    if cases.push(case).is_err() || !is_whole {
        page.lack();
    }
}

// Adds the cases of these lines.
fn push_cases(alloc: Global, page: &mut Page, cases: &mut List<Case>, all: &[&[u8]]) {
    let mut lines = Page::new(alloc);
    for line in all {
        if line.starts_with(b"#case ") && !lines.as_slice().is_empty() {
            push_case(alloc, page, cases, &lines);
            lines = Page::new(alloc);
        }
        lines.bytes(line);
    }
    if !lines.as_slice().is_empty() {
        push_case(alloc, page, cases, &lines);
    }
}

/// The cases of an input. The page remembers it where memory is lacking for them.
pub fn cases_in(alloc: Global, page: &mut Page, input: &[u8]) -> List<Case> {
    let mut cases = List::new(alloc);
    let lines = lines_of(alloc, page, input);
    push_cases(alloc, page, &mut cases, &lines);
    cases
}
