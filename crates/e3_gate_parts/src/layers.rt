// Worked cases of values, bytes, disks and packets: bodies of records and bytes that are none, disks in memory, logs and
// streams, and the fates and the order of packets.
//
// The input has a line for each case, of pieces with bars between them; the first letter of the line says what it is about. A
// line `#` has a body in digits, and lines `body WHAT` behind it ask something of it. Of streams, `read CALL MOST` is a source,
// `std MOST` a reader, `write ROOM CALL` a sink that takes the text behind the bar, and `halts TIMES` or `ends TIMES` are calls
// that end with an error. The other lines are `value WHAT`, `is KIND`, `order WAY`, `disk ..` and `net ..`.

mod bodies;
mod nets;
mod stops;
mod streams;
mod values;

use crate::texts::{cut, letter_of, number, parts_of};
use e3_codec::{each_list_has_one_spelling, records_are_a_format};
use e3_disk::torn_writes_keep_the_rest;
use e3_log::{calls_are_whole_or_not_at_all, regions_have_one_reading};
use e3_report::Page;
use std::alloc::Global;
use std::io::ErrorKind;

// Adds what a line about streams tells, by its letter and the two numbers behind its first word.
fn push_stream(alloc: Global, page: &mut Page, letter: u8, first: u64, second: u64, text: &[u8]) {
    match letter {
        b'r' => streams::push_source(alloc, page, first, second),
        b's' => streams::push_standard(alloc, page, first),
        b'w' => streams::push_sink(alloc, page, first, second, text),
        b'h' => streams::push_halting(page, ErrorKind::Interrupted, first.min(5000) as u32),
        b'e' => streams::push_halting(page, ErrorKind::BrokenPipe, first.min(5000) as u32),
        _ => page.text("no case\n"),
    }
}

// Adds the lines of a case of these pieces, by the first of them.
fn push_by(alloc: Global, page: &mut Page, digits: &[u8], all: &[&[u8]]) {
    let [head, pieces @ ..] = all else {
        return;
    };
    let (kind, words) = cut(head, b' ');
    let (first, second) = cut(words, b' ');
    let (first, second) = (number(first), number(second));
    let text = pieces.first().copied().unwrap_or(b"");
    let letter = letter_of(kind);
    match letter {
        b'b' => bodies::push_asked(alloc, page, digits, words),
        b'v' => values::push_shown(alloc, page, letter_of(words)),
        b'i' => values::push_are(alloc, page, letter_of(words), pieces),
        b'o' => values::push_order(alloc, page, letter_of(words) == b'a', pieces),
        b'd' => stops::push_pieces(alloc, page, first, second, pieces),
        b'n' => nets::push_pieces(
            alloc,
            page,
            first.min(100) as u32,
            second.min(100) as u32,
            pieces,
        ),
        _ => push_stream(alloc, page, letter, first, second, text),
    }
}

// Adds the lines of a case, behind the digits of the body that came before it.
fn push_case(alloc: Global, page: &mut Page, digits: &[u8], line: &[u8]) {
    let pieces = parts_of(alloc, page, line, b'|');
    push_by(alloc, page, digits, pieces.as_slice());
}

// Adds the lines of all cases.
fn push_cases(alloc: Global, page: &mut Page, lines: &[&[u8]]) {
    let mut digits = b"".as_slice();
    for line in lines {
        match line {
            [] => {}
            [b'#', body @ ..] => digits = body,
            _ => push_case(alloc, page, digits, line),
        }
    }
}

/// Adds all lines.
pub fn push_lines(alloc: Global, page: &mut Page, given: &Page) {
    records_are_a_format();
    each_list_has_one_spelling();
    torn_writes_keep_the_rest();
    regions_have_one_reading();
    calls_are_whole_or_not_at_all();
    let input = page.part(alloc, given, "layers");
    let lines = parts_of(alloc, page, input.as_slice(), b'\n');
    push_cases(alloc, page, lines.as_slice());
}
