// What came of a call, as text.
use e3_disk::DiskFault;
use e3_log::{AppendFault, Frame, OpenCause, TurnFault};
use e3_report::Page;

fn push_full(page: &mut Page, need: u64, room: u64) {
    page.labelled("full ", need);
    page.labelled(" of ", room);
}

/// Adds how a call of a disk ended.
pub fn push_write(page: &mut Page, end: Result<(), DiskFault>) {
    match end {
        Ok(()) => page.text("ok"),
        Err(DiskFault::Failed) => page.text("failed"),
        Err(DiskFault::Full { need, room }) => push_full(page, need, room),
    }
}

/// Adds how an append ended, or a region was closed.
pub fn push_append(page: &mut Page, end: Result<(), AppendFault>) {
    match end {
        Ok(()) => page.text("ok"),
        Err(AppendFault::Failed) => page.text("failed"),
        Err(AppendFault::Full { need, room }) => push_full(page, need, room),
    }
}

/// Adds how a turn ended.
pub fn push_turn(page: &mut Page, end: Result<(), TurnFault>) {
    match end {
        Ok(()) => page.text("ok"),
        Err(TurnFault::Failed) => page.text("failed"),
        Err(TurnFault::Full { need, room }) => push_full(page, need, room),
        Err(TurnFault::NoMemory) => page.text("no memory"),
    }
}

/// Adds why no log was opened, with what stands before the place of a damage.
pub fn push_cause(page: &mut Page, damaged: &str, cause: OpenCause) {
    match cause {
        OpenCause::Failed => page.text("failed"),
        OpenCause::Damaged { at } => page.labelled(damaged, at),
        OpenCause::NoMemory => page.text("no memory"),
    }
}

/// Adds the number of the frames that a log was opened with, and each by its place and its body.
pub fn push_frames(page: &mut Page, label: &str, place: &str, frames: &[Frame]) {
    page.labelled(label, frames.len() as u64);
    for frame in frames {
        page.labelled(place, frame.place);
        page.text(" ");
        page.hex(frame.body.as_slice());
    }
}
