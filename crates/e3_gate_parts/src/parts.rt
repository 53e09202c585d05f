// Worked cases of the parts: quorums, votes, elections, verdicts, a client's transaction, locks and records.
//
// The input has a line for each case, of pieces with bars between them; the first letter of the line says what it is about, and the
// files of this module say what stands behind it. A line behind `#` is a comment.

mod clients;
mod locks;
mod quorums;
mod rows;
mod verdicts;

use crate::texts::{cut, letter_of, parts_of, small};
use e3_report::Page;
use std::alloc::Global;

// Adds the lines of a case, by its first piece and those behind it.
fn push_by(alloc: Global, page: &mut Page, head: &[u8], pieces: &[&[u8]]) {
    let (kind, words) = cut(head, b' ');
    match letter_of(kind) {
        b'w' => quorums::push_weights(alloc, page, words),
        b's' => quorums::push_shared(alloc, page),
        b'v' => quorums::push_votes(page, pieces),
        b'a' => quorums::push_acks(page, small(words), pieces),
        b'h' | b'r' | b'c' => quorums::push_elected(alloc, page, letter_of(kind), words, pieces),
        b'e' | b'd' => verdicts::push_judged(alloc, page, letter_of(kind), words, pieces),
        b't' => clients::push_pieces(alloc, page, pieces),
        b'l' => locks::push_case(alloc, page, words, pieces),
        _ => rows::push_pieces(alloc, page, words, pieces),
    }
}

// Adds the lines of a line of the input, unless it is empty or a comment.
fn push_line(alloc: Global, page: &mut Page, line: &[u8]) {
    let pieces = parts_of(alloc, page, line, b'|');
    match pieces.as_slice() {
        [[] | [b'#', ..], ..] | [] => {}
        [head, pieces @ ..] => push_by(alloc, page, head, pieces),
    }
}

/// Adds all lines.
pub fn push_lines(alloc: Global, page: &mut Page, given: &Page) {
    let input = page.part(alloc, given, "parts");
    let lines = parts_of(alloc, page, input.as_slice(), b'\n');
    for line in &lines {
        push_line(alloc, page, line);
    }
}
