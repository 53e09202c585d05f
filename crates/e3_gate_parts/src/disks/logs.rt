// What is done with a log over a disk.
use crate::answers::{push_append, push_cause, push_frames, push_turn};
use crate::disks::briefs::{push_log_brief, push_site_brief};
use crate::disks::calls::leave_of;
use crate::disks::{Held, Word};
use crate::texts::{bytes_of, letter_of, number, small};
use e3_disk::{Disk, Drill, MemDisk};
use e3_log::{AppendFault, Frame, Log, OpenCause, TurnFault};
use e3_report::Page;
use e3_types::{List, NoMemory};
use std::alloc::Global;

// Adds of a log that is opened what is asked: whether it is, how many frames it has, a line for each, or the generation and all
// frames.
fn push_opened(page: &mut Page, asked: &[u8], generation: u32, frames: &[Frame]) {
    match letter_of(asked) {
        b'w' => page.text("opened"),
        b'c' => page.labelled("", frames.len() as u64),
        b'l' => push_frames(page, "", "\nat ", frames),
        _ => {
            page.labelled("generation ", u64::from(generation));
            push_frames(page, ", frames ", ", at ", frames);
        }
    }
}

// Adds why no log was opened over a disk, and how long that is where only this is asked.
fn push_refused<D: Disk>(page: &mut Page, asked: &[u8], cause: OpenCause, disk: &mut D) {
    let is_asked = letter_of(asked) == b'w';
    push_cause(
        page,
        if is_asked { "damaged at " } else { "damaged " },
        cause,
    );
    if let Ok(len) = disk.len() {
        if is_asked {
            page.labelled(", a disk of ", len);
        }
    }
}

/// Opens a log over a disk, adds what is asked of it, or why it is not opened, and keeps it.
pub fn opened(alloc: Global, page: &mut Page, disk: MemDisk, asked: &[u8]) -> Held {
    match Log::open(alloc, disk) {
        Ok((log, frames)) => {
            push_opened(page, asked, log.generation(), frames.as_slice());
            Held::Log(log, bodies(alloc, page, frames))
        }
        Err(refused) => {
            let mut disk = refused.disk;
            push_refused(page, asked, refused.cause, &mut disk);
            Held::Disk(disk)
        }
    }
}

// The bodies of frames.
fn bodies(alloc: Global, page: &mut Page, frames: List<Frame>) -> List<List<u8>> {
    let mut out = List::new(alloc);
    for frame in frames.into_vec() {
        if out.push(frame.body).is_err() {
            page.lack();
        }
    }
    out
}

/// Closes the other region, and turns the log to this body, where it is one.
pub fn turn<D: Disk>(log: &mut Log<D>, body: &[u8]) -> Result<(), TurnFault> {
    if body.is_empty() || log.generation() == u32::MAX {
        return Ok(());
    }
    match log.clear() {
        Ok(()) => log.turn(body),
        Err(_) => Err(TurnFault::Failed),
    }
}

// Appends a body, where it is one: it has a byte, and the first is not that of a turn.
fn append<D: Disk>(log: &mut Log<D>, body: &[u8]) -> Result<(), AppendFault> {
    if body.is_empty() || body[0] == 7 {
        return Ok(());
    }
    log.append(body)
}

// Does with a log what leaves its bodies as they are.
fn act<D: Drill>(page: &mut Page, log: &mut Log<D>, word: &Word) {
    match word.letter {
        b'c' => push_append(page, log.clear()),
        b't' => push_turn(page, turn(log, word.bytes)),
        b'f' => {
            let fits = log.fits(number(word.first));
            page.text(if fits { "yes" } else { "no" });
        }
        b'a' => {
            log.arm(small(word.first).max(1), leave_of(word.second));
            page.text("ok");
        }
        _ => page.text("no word"),
    }
}

// Adds a copy of a body to those of a log.
fn note_body(alloc: Global, bodies: &mut List<List<u8>>, body: &[u8]) -> Result<(), NoMemory> {
    bodies.push(bytes_of(alloc, body)?)
}

// Adds a body to the log, and to those that it holds where it took it.
fn add(
    alloc: Global,
    page: &mut Page,
    log: &mut Log<MemDisk>,
    bodies: &mut List<List<u8>>,
    body: &[u8],
) {
    let end = append(log, body);
    push_append(page, end);
    if end.is_ok() && note_body(alloc, bodies, body).is_err() {
        page.lack();
    }
}

/// Does what a word says with a log, and with the bodies that it holds, and adds what came of it.
pub fn act_on_log(
    alloc: Global,
    page: &mut Page,
    log: &mut Log<MemDisk>,
    bodies: &mut List<List<u8>>,
    word: &Word,
) {
    match word.letter {
        b'b' => push_log_brief(alloc, page, log, bodies.as_slice()),
        b's' => push_site_brief(alloc, page, bodies.as_slice()),
        b'a' if word.second.is_empty() => add(alloc, page, log, bodies, word.bytes),
        _ => act(page, log, word),
    }
}
