// Bodies of frames, byte by byte, and bytes that are no records.
use crate::texts::{cut, letter_of, number, push_hex, spelled_by};
use e3_codec::{RecordFault, put_records, read_records};
use e3_report::Page;
use e3_types::{NoMemory, Record};
use std::alloc::Global;

// Adds records behind what they are written as.
fn push_records(alloc: Global, page: &mut Page, records: &[Record]) {
    match put_records(alloc, records) {
        Ok(again) => {
            page.labelled("body of ", again.len());
            page.text(" bytes ");
            push_hex(page, again.as_slice());
            page.records(records);
        }
        Err(NoMemory) => page.lack(),
    }
}

// Adds the records that a body spells, behind what they are written as.
fn push_body(alloc: Global, page: &mut Page, body: &[u8]) {
    match read_records(alloc, 1, body) {
        Ok(records) => push_records(alloc, page, records.as_slice()),
        Err(_) => page.lack(),
    }
}

// Adds a dash where records are written as just these bytes, and else the end of all places.
fn push_again(alloc: Global, page: &mut Page, records: &[Record], bytes: &[u8]) {
    match put_records(alloc, records) {
        Ok(again) => {
            if again.as_slice() == bytes {
                page.text(" -");
            } else {
                page.labelled(" ", u64::MAX);
            }
        }
        Err(NoMemory) => page.lack(),
    }
}

// Adds the place where bytes are bad in the log of site 1; a dash where they are records, which are written as just these bytes.
fn push_bad(alloc: Global, page: &mut Page, bytes: &[u8]) {
    match read_records(alloc, 1, bytes) {
        Ok(records) => push_again(alloc, page, records.as_slice(), bytes),
        Err(RecordFault::Bad { at }) => page.labelled(" ", at),
        Err(RecordFault::NoMemory) => page.lack(),
    }
}

// Adds where the bytes are bad with this one in place of that at this place; the cases change tags, sites, names and lengths.
fn push_changed(alloc: Global, page: &mut Page, bytes: &[u8], place: u64, byte: u8) {
    let mut changed = Page::new(alloc);
    let mut at = 0u64;
    for old in bytes {
        changed.bytes(&[if at == place { byte } else { *old }]);
        at = at.saturating_add(1);
    }
    if !changed.is_whole() {
        page.lack();
    }
    push_bad(alloc, page, changed.as_slice());
}

// Adds where the body is bad when it is cut behind each of its bytes, and none: it is records only where one of them ends.
fn push_cuts(alloc: Global, page: &mut Page, body: &[u8]) {
    page.text("cut:");
    for length in 0..=body.len() {
        push_bad(alloc, page, body.get(..length).unwrap_or(body));
    }
    page.text("\n");
}

// Adds where the body is bad when one of its bytes is greater by one: where that is a byte of a number or a value, the body may be
// other records.
fn push_changes(alloc: Global, page: &mut Page, body: &[u8]) {
    page.text("changed:");
    let mut place = 0u64;
    for byte in body {
        push_changed(alloc, page, body, place, byte.wrapping_add(1));
        place = place.saturating_add(1);
    }
    page.text("\n");
}

// Adds where the body is bad with another byte in it, by the place and the value of that.
fn push_field(alloc: Global, page: &mut Page, body: &[u8], words: &[u8]) {
    let (place, byte) = cut(words, b' ');
    let (place, byte) = (number(place), number(byte));
    page.labelled("byte ", place);
    page.labelled(" is ", byte);
    page.text(":");
    push_changed(alloc, page, body, place, byte.min(255) as u8);
    page.text("\n");
}

// Adds what is asked of a body.
fn push_answer(alloc: Global, page: &mut Page, body: &[u8], asked: &[u8]) {
    let (word, words) = cut(asked, b' ');
    match letter_of(word) {
        b'r' => push_body(alloc, page, body),
        b'c' => push_cuts(alloc, page, body),
        b'g' => push_changes(alloc, page, body),
        b'b' => push_field(alloc, page, body, words),
        _ => {
            page.bytes(asked);
            page.text(":");
            push_bad(alloc, page, body);
            page.text("\n");
        }
    }
}

/// Adds what is asked of the body that digits spell: `read`, `cut`, `greater`, `byte PLACE VALUE`, or `name` and more words,
/// which are its name.
pub fn push_asked(alloc: Global, page: &mut Page, digits: &[u8], asked: &[u8]) {
    let body = spelled_by(alloc, page, digits);
    push_answer(alloc, page, body.as_slice(), asked);
}
