// What a run tells of logs without room: how often it committed, fell and rose, and of how many sites the disk stands.
use crate::given::{Asked, Ran, played};
use crate::judged::standing::count_standing;
use e3_report::Page;
use e3_scenario::read_scenario;
use e3_top::Ended;
use std::alloc::Global;
use std::sync::Wait;
use std::thread::Threads;

// What is counted: a name, and how a line of site 1 begins and ends.
const COUNTED: [(&str, &str, &str); 6] = [
    (", committed ", "1: 1.", " committed"),
    (", fell full ", "1: fell full ", ""),
    (", fell fault ", "1: fell fault", ""),
    (", rose ", "1: rose ", ""),
    (" of which kept ", "1: rose ", " kept"),
    (", rise failed ", "1: rise failed ", ""),
];

// How many lines of a text begin and end so.
fn count_lines(text: &[u8], front: &[u8], back: &[u8]) -> u64 {
    let mut count = 0u64;
    for line in text.split(|byte| *byte == b'\n') {
        if line.starts_with(front) && line.ends_with(back) {
            count = count.saturating_add(1);
        }
    }
    count
}

// Adds the first line that begins so, if there is one.
fn push_first(page: &mut Page, text: &[u8], front: &[u8]) {
    for line in text.split(|byte| *byte == b'\n') {
        if line.starts_with(front) {
            page.text(", first ");
            page.bytes(line);
            return;
        }
    }
}

// Adds what a report tells of site 1.
fn push_told(page: &mut Page, report: &[u8]) {
    for (name, front, back) in COUNTED {
        page.labelled(name, count_lines(report, front.as_bytes(), back.as_bytes()));
    }
    push_first(page, report, b"1: fell full ");
}

// Adds of how many sites the disk stands, and what the report tells of site 1.
fn push_ran(alloc: Global, page: &mut Page, text: &[u8], ran: Ran) {
    let Ran { ended, sink, .. } = ran;
    let Ended {
        status,
        history,
        disks,
    } = ended;
    page.labelled(": status ", u64::from(status));
    match read_scenario(alloc, text) {
        Ok(scenario) => {
            let standing = count_standing(alloc, page, &scenario, history.as_slice(), disks);
            page.labelled(", disks standing ", standing);
            page.labelled(" of ", scenario.weights.len());
        }
        Err(_) => page.lack(),
    }
    push_told(page, sink.written());
    page.text("\n");
}

/// Adds the line of a run: its status, of how many sites the disk stands, and how often site 1 committed, fell and rose.
pub fn push_log<R: Wait + Threads + Sync>(rt: &R, alloc: Global, page: &mut Page, asked: &Asked) {
    page.bytes(asked.name);
    match played(rt, alloc, &asked.given()) {
        Some(ran) => push_ran(alloc, page, asked.text, ran),
        None => page.lack(),
    }
}
