// Disks in memory and logs over them: what a stop leaves, what fits, which calls fail, how long a frame is, what an append
// leaves that fails or is stopped, and why a log is not opened.
//
// A line of the input is `disk CAPACITY CALL`, of which the call of this number fails, or none for 0, and pieces: a word says
// what is done, and what came of it is printed; that of a word behind a dash is not. A log that is opened over bytes which were
// written tells where they are no frames.
use crate::disks::{Held, blank, did};
use crate::texts::push_text;
use e3_report::Page;
use std::alloc::Global;

// Does what a word says, and adds what came of it where it stands behind no dash.
fn act(alloc: Global, page: &mut Page, held: Held, piece: &[u8]) -> Held {
    match piece {
        [b'-', word @ ..] => {
            let mut unseen = Page::new(alloc);
            let held = did(alloc, &mut unseen, held, word);
            if !unseen.is_whole() {
                page.lack();
            }
            held
        }
        _ => {
            page.text(" ");
            did(alloc, page, held, piece)
        }
    }
}

/// Adds what comes of these pieces on a disk.
pub fn push_pieces(alloc: Global, page: &mut Page, capacity: u64, call: u64, pieces: &[&[u8]]) {
    let mut held = blank(alloc, page, capacity, call);
    for piece in pieces {
        if !push_text(page, piece) {
            held = act(alloc, page, held, piece);
        }
    }
    page.text("\n");
    drop(held);
}
