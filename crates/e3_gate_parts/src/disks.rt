// A disk in memory, or the log over it, by what is done with it word by word: a name, and what it is told behind colons. The
// calls go through the bounds.
//
// The first letter of a word says what is done, and where two words share it, whether something stands behind the second colon.
// With a disk: `put:PLACE:DIGITS` writes bytes and makes them durable, `write:PLACE:DIGITS` writes them, and `sync` makes them
// durable; `three` writes three pieces; `dark` and `power` take its power and give it; `arm:CALLS:LEAVE` lets it stop in one of
// its next calls; `read` and `capacity` ask it; and `open:WHAT` opens a log over it. With a log: `append:DIGITS` adds a body;
// `clear` closes the other region, and `turn:DIGITS` turns to a body in it; `fits:LENGTH` asks whether a body of this length
// fits; `arm` stands as above; `brief` turns to the brief of its bodies, and `site` asks a site that rises with them for it;
// `leave` leaves the disk alone, and `power` with power. Any other word is `no word`.

mod briefs;
mod calls;
mod logs;

use crate::texts::{cut, letter_of, only, spelled_by};
use calls::act_on_disk;
use e3_disk::MemDisk;
use e3_log::Log;
use e3_report::Page;
use e3_types::{List, NoMemory};
use logs::{act_on_log, opened};
use std::alloc::Global;

/// What there is: nothing for want of memory, a disk, or a log over one, with the bodies that it was opened with and those that
/// it took since.
#[derive(Drop)]
pub enum Held {
    Nothing,
    Disk(MemDisk),
    Log(Log<MemDisk>, List<List<u8>>),
}

/// What a word says: its first letter, what stands behind the first colon and the second, and the bytes that the last of these
/// spells.
#[derive(Clone, Copy)]
pub struct Word<'a> {
    letter: u8,
    first: &'a [u8],
    second: &'a [u8],
    bytes: &'a [u8],
}

fn blank_disk(alloc: Global, capacity: u64, call: u64) -> Result<MemDisk, NoMemory> {
    let fails = only(alloc, call)?;
    MemDisk::with_faults(alloc, capacity.max(2).min(100_000), fails)
}

/// A blank disk of this capacity, of 2 to 100,000 bytes, whose call of this number fails, or none for 0.
pub fn blank(alloc: Global, page: &mut Page, capacity: u64, call: u64) -> Held {
    match blank_disk(alloc, capacity, call) {
        Ok(disk) => Held::Disk(disk),
        Err(NoMemory) => {
            page.lack();
            Held::Nothing
        }
    }
}

fn done_to_disk(alloc: Global, page: &mut Page, mut disk: MemDisk, word: &Word) -> Held {
    if word.letter == b'o' {
        return opened(alloc, page, disk, word.first);
    }
    act_on_disk(alloc, page, &mut disk, word);
    Held::Disk(disk)
}

fn done_to_log(
    alloc: Global,
    page: &mut Page,
    mut log: Log<MemDisk>,
    mut bodies: List<List<u8>>,
    word: &Word,
) -> Held {
    if word.letter == b'l' || word.letter == b'p' {
        drop(bodies);
        return done_to_disk(alloc, page, log.into_disk(), word);
    }
    act_on_log(alloc, page, &mut log, &mut bodies, word);
    Held::Log(log, bodies)
}

// Does what a word says, and adds what came of it.
fn done(alloc: Global, page: &mut Page, held: Held, word: &Word) -> Held {
    match held {
        Held::Nothing => {
            page.text("no disk");
            Held::Nothing
        }
        Held::Disk(disk) => done_to_disk(alloc, page, disk, word),
        Held::Log(log, bodies) => done_to_log(alloc, page, log, bodies, word),
    }
}

/// Does what a word says, and adds what came of it.
pub fn did(alloc: Global, page: &mut Page, held: Held, text: &[u8]) -> Held {
    let (name, rest) = cut(text, b':');
    let (first, second) = cut(rest, b':');
    let digits = spelled_by(alloc, page, if second.is_empty() { first } else { second });
    let word = Word {
        letter: letter_of(name),
        first,
        second,
        bytes: digits.as_slice(),
    };
    done(alloc, page, held, &word)
}
