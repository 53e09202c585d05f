// Logs in two regions over disks in memory. Each line of the input is the capacity of a disk and what is done with it,
// word by word; it is printed with what came of each word.
use crate::disks::{Held, blank, did};
use crate::texts::{cut, number, parts_of};
use e3_report::Page;
use std::alloc::Global;

// Does what the words behind the capacity say, each behind the one before, and adds each with what came of it.
fn push_words(alloc: Global, page: &mut Page, mut held: Held, words: &[&[u8]]) {
    for word in words {
        page.text("\n  ");
        page.bytes(word);
        page.text(": ");
        held = did(alloc, page, held, word);
    }
    page.text("\n");
    drop(held);
}

// Adds the lines of a disk.
fn push_line(alloc: Global, page: &mut Page, line: &[u8]) {
    let (capacity, words) = cut(line, b' ');
    page.text("disk of ");
    page.bytes(capacity);
    let words = parts_of(alloc, page, words, b' ');
    let held = blank(alloc, page, number(capacity), 0);
    push_words(alloc, page, held, &words);
}

/// Adds all lines.
pub fn push_lines(alloc: Global, page: &mut Page, given: &Page) {
    let input = page.part(alloc, given, "regions");
    let lines = parts_of(alloc, page, input.as_slice(), b'\n');
    for line in &lines {
        if !line.is_empty() {
            push_line(alloc, page, line);
        }
    }
}
