// The brief of the records of a log at site 1.
use crate::answers::push_turn;
use crate::disks::logs::turn;
use e3_codec::{put_records, read_records};
use e3_disk::MemDisk;
use e3_log::Log;
use e3_report::Page;
use e3_site::{RebuildFault, Site, brief, brief_of_site, rebuild};
use e3_types::{List, NoMemory, Record};
use std::alloc::Global;

// Adds the records of these bodies, at site 1; false where a body is not records.
fn add_records(
    alloc: Global,
    out: &mut List<Record>,
    bodies: &[List<u8>],
) -> Result<bool, NoMemory> {
    for body in bodies {
        match read_records(alloc, 1, body.as_slice()) {
            Ok(read) => out.add_copies(alloc, read.as_slice())?,
            Err(_) => return Ok(false),
        }
    }
    Ok(true)
}

// The bytes of a brief.
fn brief_bytes(alloc: Global, brief: Result<List<Record>, NoMemory>) -> Page {
    let mut bytes = Page::new(alloc);
    match brief {
        Ok(records) => push_bytes(alloc, &mut bytes, records.as_slice()),
        Err(NoMemory) => bytes.lack(),
    }
    bytes
}

// Adds the bytes of records.
fn push_bytes(alloc: Global, page: &mut Page, records: &[Record]) {
    match put_records(alloc, records) {
        Ok(bytes) => page.bytes(bytes.as_slice()),
        Err(NoMemory) => page.lack(),
    }
}

// Adds how the log was turned to the brief of these records, and the bytes of the brief.
fn push_turned(alloc: Global, page: &mut Page, log: &mut Log<MemDisk>, records: &[Record]) {
    let short = brief_bytes(alloc, brief(alloc, records));
    if !short.is_whole() {
        return page.lack();
    }
    push_turn(page, turn(log, short.as_slice()));
    page.text(" ");
    page.hex(short.as_slice());
}

// Adds whether a site that rose with these records, as its tables have them, tells their brief, or the one that it told.
fn push_own(alloc: Global, page: &mut Page, site: &Site, records: &[Record]) {
    let told = brief_bytes(alloc, brief_of_site(alloc, site));
    let short = brief_bytes(alloc, brief(alloc, records));
    if !told.is_whole() || !short.is_whole() {
        return page.lack();
    }
    if told.as_slice() == short.as_slice() {
        page.text("as its brief");
    } else {
        page.hex(told.as_slice());
    }
}

// Adds whether a site that rises with these records tells their brief.
fn push_risen(alloc: Global, page: &mut Page, records: &[Record]) {
    if records.is_empty() {
        return page.text("no records");
    }
    match rebuild(alloc, 1, records) {
        Ok(site) => {
            push_own(alloc, page, &site, records);
            drop(site);
        }
        Err(RebuildFault::Order { at }) => page.labelled("out of order at ", at),
        Err(RebuildFault::NoMemory) => page.lack(),
    }
}

// The records of these bodies; none where a body is not records, which the page says, or where memory is lacking.
fn read_bodies(alloc: Global, page: &mut Page, bodies: &[List<u8>]) -> Option<List<Record>> {
    let mut records = List::new(alloc);
    match add_records(alloc, &mut records, bodies) {
        Ok(true) => return Some(records),
        Ok(false) => page.text("no records"),
        Err(NoMemory) => page.lack(),
    }
    None
}

/// Turns the log to the brief of what it holds, and adds how that ended, and the bytes of the brief.
pub fn push_log_brief(alloc: Global, page: &mut Page, log: &mut Log<MemDisk>, bodies: &[List<u8>]) {
    if let Some(records) = read_bodies(alloc, page, bodies) {
        push_turned(alloc, page, log, records.as_slice());
    }
}

/// Adds of a site that rises with the records of these bodies whether it tells their brief.
pub fn push_site_brief(alloc: Global, page: &mut Page, bodies: &[List<u8>]) {
    if let Some(records) = read_bodies(alloc, page, bodies) {
        push_risen(alloc, page, records.as_slice());
    }
}
