// What is done with a disk over which there is no log.
use crate::answers::push_write;
use crate::disks::Word;
use crate::texts::{bytes_of, letter_of, number, small};
use e3_disk::{Disk, DiskFault, Drill, Piece, write_pieces};
use e3_report::Page;
use e3_types::{Leave, List, NoMemory};
use std::alloc::Global;

/// What a stop leaves, by its name; a number is the byte of junk.
pub fn leave_of(name: &[u8]) -> Leave {
    match letter_of(name) {
        b'n' => Leave::None,
        b'h' => Leave::Half,
        b'a' => Leave::All,
        _ => Leave::Junk((number(name) % 256) as u8),
    }
}

// Adds the bytes that a disk reads back.
fn push_content<D: Disk>(alloc: Global, page: &mut Page, disk: &mut D) {
    let Ok(len) = disk.len() else {
        return page.lack();
    };
    match vec![in alloc; 0u8; len as usize] {
        Ok(mut bytes) => {
            if disk.read_at(0, &mut bytes).is_err() {
                page.lack();
            }
            page.hex(&bytes);
        }
        Err(_) => page.lack(),
    }
}

// Writes within what the disk holds or right behind it.
fn write<D: Disk>(disk: &mut D, place: u64, bytes: &[u8]) -> Result<(), DiskFault> {
    if place > disk.len()? {
        return Err(DiskFault::Failed);
    }
    disk.write_at(place, bytes)
}

// Writes so, and makes it durable.
fn put<D: Disk>(disk: &mut D, place: u64, bytes: &[u8]) -> Result<(), DiskFault> {
    write(disk, place, bytes)?;
    disk.sync()
}

// Three pieces, each of which begins within the one byte of a blank disk or right behind it.
static PIECES: [(u64, &[u8]); 3] = [(0, b"v"), (1, b"wxyz"), (0, b"never")];

fn three_pieces(alloc: Global) -> Result<List<Piece>, NoMemory> {
    let mut pieces = List::new(alloc);
    for (place, text) in &PIECES {
        let bytes = bytes_of(alloc, text)?;
        pieces.push(Piece {
            place: *place,
            bytes,
        })?;
    }
    Ok(pieces)
}

// Writes pieces that begin so.
fn put_each<D: Disk>(disk: &mut D, pieces: &[Piece]) -> Result<(), DiskFault> {
    let len = disk.len()?;
    if len < 1 || pieces.iter().any(|p| p.place > 1) {
        return Err(DiskFault::Failed);
    }
    write_pieces(disk, pieces)
}

// Adds how the writes of three pieces ended.
fn push_three<D: Disk>(alloc: Global, page: &mut Page, disk: &mut D) {
    match three_pieces(alloc) {
        Ok(pieces) => push_write(page, put_each(disk, pieces.as_slice())),
        Err(NoMemory) => page.lack(),
    }
}

// Does with a disk what always succeeds: gives it power, takes it, or arms it; or leaves it as it is. Adds that it did.
fn set<D: Drill>(page: &mut Page, disk: &mut D, word: &Word) {
    match word.letter {
        b'p' => disk.power_on(),
        b'd' => disk.power_cut(),
        b'a' => disk.arm(small(word.first).max(1), leave_of(word.second)),
        b'l' => {}
        _ => return page.text("no word"),
    }
    page.text("ok");
}

/// Does what a word says with a disk over which there is no log, and adds what came of it.
pub fn act_on_disk<D: Drill>(alloc: Global, page: &mut Page, disk: &mut D, word: &Word) {
    match word.letter {
        b'p' if !word.second.is_empty() => {
            push_write(page, put(disk, number(word.first), word.bytes));
        }
        b'w' => push_write(page, write(disk, number(word.first), word.bytes)),
        b's' => push_write(page, disk.sync()),
        b't' => push_three(alloc, page, disk),
        b'r' => push_content(alloc, page, disk),
        b'c' => page.labelled("", disk.capacity()),
        _ => set(page, disk, word),
    }
}
