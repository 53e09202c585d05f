// Runs scenarios over disks in memory: how each run ends, what it writes, what the plain judge says of its history, and of how
// many sites the disk reads as a log with the brief of the site's log, with or without what is in doubt. The input has texts of
// scenarios, each behind a line `##text`, and behind each the lines of what is run of it, as `##judge one write`.
//
// `judge NAME: SETTINGS` judges a run, and `group NAME` four. `stop NAME: CALL LEAVE, SETTINGS` puts these words for the `@` of the
// text, judges the run and adds the events behind the stop. `run NAME: SETTINGS` tells how a run ends whose streams, disks or
// history are as the settings say, `events NAME: SETTINGS` counts some events of it, and `log NAME: SETTINGS` what site 1 does whose
// log has no room. `disk` has the bytes of the disk of site 1, and `fronts` how each front of the text is refused.

mod ends;
mod fronts;
mod judging;
mod logs;
mod standing;

use crate::given::{Asked, Given};
use crate::texts::{cut, without_end};
use e3_report::Page;
use std::alloc::Global;
use std::sync::Wait;
use std::thread::Threads;

// Adds the lines of what is run of a text, by the first letter of what is asked.
fn push_command<R: Wait + Threads + Sync>(
    rt: &R,
    alloc: Global,
    page: &mut Page,
    text: &[u8],
    command: &[u8],
) {
    let (word, rest) = cut(command, b' ');
    let (name, settings) = cut(rest, b':');
    let asked = Asked {
        name,
        text,
        settings,
    };
    match word.first() {
        Some(b'j') => judging::push_judged(rt, alloc, page, &asked),
        Some(b'g') => judging::push_group(rt, alloc, page, &asked),
        Some(b's') => judging::push_stop(rt, alloc, page, &asked),
        Some(b'r') => ends::push_run(rt, alloc, page, &asked),
        Some(b'e') => ends::push_counted(rt, alloc, page, &asked),
        Some(b'd') => ends::push_disk(rt, alloc, page, text),
        Some(b'l') => logs::push_log(rt, alloc, page, &asked),
        Some(b'f') => fronts::push_fronts(rt, alloc, page, text),
        _ => page.lack(),
    }
}

// Takes a line of a text, or adds the lines of what is run of it.
fn push_line<R: Wait + Threads + Sync>(
    rt: &R,
    alloc: Global,
    page: &mut Page,
    text: &mut Page,
    line: &[u8],
) {
    match line.strip_prefix(b"##") {
        None => text.bytes(line),
        Some([b't', ..]) => *text = Page::new(alloc),
        Some(command) => push_command(rt, alloc, page, text.as_slice(), without_end(command)),
    }
    if !text.is_whole() {
        page.lack();
    }
}

/// Adds all lines.
pub fn push_lines<R: Wait + Threads + Sync>(rt: &R, alloc: Global, page: &mut Page, given: &Page) {
    let input = page.part(alloc, given, "judged");
    let mut text = Page::new(alloc);
    for line in input.as_slice().split_inclusive(|byte| *byte == b'\n') {
        push_line(rt, alloc, page, &mut text, line);
    }
}

/// Adds the line of what is said of a run of the one scenario that is given.
pub fn push_one<R: Wait + Threads + Sync>(rt: &R, alloc: Global, page: &mut Page, given: &Page) {
    if !given.is_whole() {
        page.lack();
    }
    judging::push_run_line(rt, alloc, page, &Given::of(given.as_slice()));
}
