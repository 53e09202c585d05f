// How a run ended, in words.
use crate::given::{Asked, Given, Ran, played};
use e3_disk::{Disk, MemDisk};
use e3_report::Page;
use std::alloc::Global;
use std::sync::Wait;
use std::thread::Threads;

// Adds its status, how many entries its history has, how many bytes are left of its source, and how many it wrote.
fn push_end(page: &mut Page, ran: &Ran) {
    page.labelled(": status ", u64::from(ran.ended.status));
    page.labelled(", entries ", ran.ended.history.len());
    page.labelled(", left ", ran.source.left().len() as u64);
    page.labelled(", written ", ran.sink.written().len() as u64);
}

// What the bytes that were written are of a report, where they have some; none where they are a text of their own.
fn part_of(written: &[u8], report: &[u8]) -> Option<&'static str> {
    if written.starts_with(b"refused") {
        None
    } else if written == report {
        Some(", the report\n")
    } else if report.starts_with(written) {
        Some(", a front of the report\n")
    } else if written.starts_with(report) {
        Some(", the report and more\n")
    } else {
        None
    }
}

// Adds what was written: a part of this report, or else the text itself.
fn push_written(page: &mut Page, written: &[u8], report: &[u8]) {
    if written.is_empty() {
        return page.text("\n");
    }
    match part_of(written, report) {
        Some(part) => page.text(part),
        None => {
            page.text(":\n");
            page.bytes(written);
        }
    }
}

// Adds how a run ended, and what it wrote of this report.
fn push_ran(page: &mut Page, ran: &Ran, report: &[u8]) {
    push_end(page, ran);
    push_written(page, ran.sink.written(), report);
}

// Adds how a run of what is given ended, and what it wrote of the report of the run without settings.
fn push_beside<R: Wait + Threads + Sync>(
    rt: &R,
    alloc: Global,
    page: &mut Page,
    given: &Given,
    usual: &Ran,
) {
    match played(rt, alloc, given) {
        Some(ran) => push_ran(page, &ran, usual.sink.written()),
        None => page.lack(),
    }
}

/// Adds the line of a run: how it ended, and what it wrote of the report of a run with nothing in its way.
pub fn push_run<R: Wait + Threads + Sync>(rt: &R, alloc: Global, page: &mut Page, asked: &Asked) {
    page.bytes(asked.name);
    match played(rt, alloc, &Given::of(asked.text)) {
        Some(usual) => push_beside(rt, alloc, page, &asked.given(), &usual),
        None => page.lack(),
    }
}

// How often a line stands in a text.
fn count_line(text: &[u8], line: &[u8]) -> u64 {
    let mut count = 0u64;
    for part in text.split(|byte| *byte == b'\n') {
        if part == line {
            count = count.saturating_add(1);
        }
    }
    count
}

const EVENTS: [(&str, &str); 6] = [
    (", missed ", "1: missed"),
    (", rise failed ", "1: rise failed 1 fault"),
    (", fell ", "1: fell fault"),
    (", incarnation 2 ", "1: rose 2"),
    (", incarnation 3 ", "1: rose 3"),
    (", committed ", "1: 1.1.1 committed"),
];

// Adds how often site 1 missed a rise, failed in one, fell, and rose again, and transaction 1.1.1 was committed.
fn push_events(page: &mut Page, report: &[u8]) {
    for (label, line) in EVENTS {
        page.labelled(label, count_line(report, line.as_bytes()));
    }
}

// Adds its status, and how often each event of site 1 stands in its report.
fn push_counts(page: &mut Page, ran: &Ran) {
    page.labelled(": status ", u64::from(ran.ended.status));
    push_events(page, ran.sink.written());
    page.text("\n");
}

/// Adds the line of a run: its status, and how often each event of site 1 stands in its report.
pub fn push_counted<R: Wait + Threads + Sync>(
    rt: &R,
    alloc: Global,
    page: &mut Page,
    asked: &Asked,
) {
    page.bytes(asked.name);
    match played(rt, alloc, &asked.given()) {
        Some(ran) => push_counts(page, &ran),
        None => page.lack(),
    }
}

// How many bytes there are up to the last that is not 00.
fn count_written(bytes: &[u8]) -> usize {
    let mut written = 0usize;
    let mut count = 0usize;
    for byte in bytes {
        count = count.saturating_add(1);
        if *byte != 0 {
            written = count;
        }
    }
    written
}

// Adds bytes as two digits each, 16 on a line.
fn push_hex(page: &mut Page, bytes: &[u8]) {
    let mut count = 0u8;
    for byte in bytes {
        page.hex(&[*byte]);
        count = count.wrapping_add(1);
        if count % 16 == 0 {
            page.text("\n");
        }
    }
    if count % 16 != 0 {
        page.text("\n");
    }
}

// All bytes of a disk; none without memory, or where it fails.
fn bytes_of(alloc: Global, disk: &mut MemDisk) -> Option<Vec<u8>> {
    let len = disk.len().ok()?;
    let mut bytes = vec![in alloc; 0u8; len as usize].ok()?;
    disk.read_at(0, &mut bytes).ok()?;
    Some(bytes)
}

// Adds bytes, and how many bytes 00 stand behind the last of another value.
fn push_written_bytes(page: &mut Page, bytes: &[u8]) {
    let (front, back) = bytes.split_at(count_written(bytes).min(bytes.len()));
    push_hex(page, front);
    page.labelled("and 00, ", back.len() as u64);
    page.text(" times\n");
}

// Adds the bytes of a disk.
fn push_bytes(alloc: Global, page: &mut Page, disk: &mut MemDisk) {
    match bytes_of(alloc, disk) {
        Some(bytes) => push_written_bytes(page, &bytes),
        None => page.lack(),
    }
}

// Adds the bytes of the first disk.
fn push_first(alloc: Global, page: &mut Page, disks: &mut [MemDisk]) {
    match disks.first_mut() {
        Some(disk) => push_bytes(alloc, page, disk),
        None => page.lack(),
    }
}

/// Adds the bytes of the disk of site 1 behind a run.
pub fn push_disk<R: Wait + Threads + Sync>(rt: &R, alloc: Global, page: &mut Page, text: &[u8]) {
    match played(rt, alloc, &Given::of(text)) {
        Some(mut ran) => push_first(alloc, page, &mut ran.ended.disks),
        None => page.lack(),
    }
}
