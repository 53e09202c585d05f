// From the bytes of a trace to its history.
ghost use Rattle.std.specs.Prelude.{◌≡◌, ◌⊎◌, ◌≤◌, length, Ok, Err, IfOk, IfErr, IfSome, MatchOption, None, Some};
ghost use Rattle.e3_report.specs.lines.Marks.{feed, pieces};
ghost use Rattle.e3_trace.specs.Trace.{nothing_read, ended, lines_read, behind_mark, front_of, next_line, history_of, Spells, GoesOn};

use crate::cuts::{FEED, cut};
use crate::faults::{Fault, TraceFault};
use crate::reading::{MOST_ENTRIES, Reading};
use e3_report::lines::is_text;
use e3_types::{NoMemory, Scenario};
use e3_world::History;
use std::alloc::Global;

/// The most bytes that are read as a trace.
const MOST_BYTES: usize = 268_435_456;

/// How long the line of the mark is, with its end.
const MARK_LINE: usize = 7;

// The text behind the first line that is the mark.
#[tactic(auto, using(crate::proofs::Lines::mark_none, crate::proofs::Lines::mark_here, crate::proofs::Lines::mark_later))]
fn behind_mark(bytes: &[u8]) -> Option<&[u8]>
    ensures found { MatchOption result (behind_mark (pieces feed bytes.now) ≡ None) (λ left. behind_mark (pieces feed bytes.now) ≡ Some (pieces feed left.now)) }
    ensures shorter { IfSome result (λ left. length left.now ≤ length bytes.now) }
{
    let mut left = bytes;
    'lines: loop {
        match cut(left, FEED) {
            Err(_) => return None,
            Ok((line, more)) => {
                if is_text(line, "#trace") {
                    return Some(more);
                }
                left = more;
            }
        }
    }
}

/// What stands before the first line `#trace`, as the scenario of a trace: all bytes where there is no such line.
#[tactic(auto, using(crate::proofs::Fronts::front_whole, crate::proofs::Fronts::front_room, crate::proofs::Fronts::front_taken))]
pub fn before_mark(bytes: &[u8]) -> &[u8]
    ensures { result.now ≡ front_of (pieces feed bytes.now) }
{
    match behind_mark(bytes) {
        None => bytes,
        Some(text) => &bytes[..bytes.len() - text.len() - MARK_LINE],
    }
}

// The history, where the lines end with this one, and nothing is left behind it.
#[tactic(auto, using(crate::proofs::Lines::left_some))]
fn ended(alloc: Global, at: u64, reading: &mut Reading, left: &[u8]) -> Result<History, TraceFault>
    requires { at ≤ 268435457 }
    ensures { Spells (λ h. h.entries) result (ended at reading.old (pieces feed left.now)) }
{
    match reading.end(alloc) {
        Err(Fault::NoMemory) => Err(TraceFault::NoMemory),
        Err(Fault::Bad) => Err(TraceFault::Line { at }),
        Ok(history) => {
            if left.is_empty() {
                Ok(history)
            } else {
                Err(TraceFault::Line { at: at + 1 })
            }
        }
    }
}

// One more line, of this number.
fn one_on(alloc: Global, at: u64, reading: &mut Reading, line: &[u8]) -> Result<(), TraceFault>
    ensures { GoesOn at result reading.new (next_line reading.old line.now) }
{
    match reading.next(alloc, line) {
        Err(Fault::NoMemory) => Err(TraceFault::NoMemory),
        Err(Fault::Bad) => Err(TraceFault::Line { at }),
        Ok(()) => {
            if reading.is_over() {
                Err(TraceFault::TooLong)
            } else {
                Ok(())
            }
        }
    }
}

// How many lines begin an entry, as far as a history may have them: their first byte is a digit.
fn entries_in(text: &[u8]) -> u64
    ensures { result ≤ 2000001 }
{
    let mut count = 0u64;
    let mut before = FEED;
    for byte in text {
        if before == FEED && byte.is_ascii_digit() && count <= MOST_ENTRIES {
            count += 1;
        }
        before = *byte;
    }
    count
}

// The history that these lines spell, where nothing is read yet.
#[tactic(auto, using(crate::proofs::Lines::read_none, crate::proofs::Lines::read_end, crate::proofs::Lines::read_on))]
fn lines_with(alloc: Global, reading: &mut Reading, text: &[u8]) -> Result<History, TraceFault>
    requires fresh { reading.old ≡ nothing_read }
    requires few { length text.now ≤ 268435456 }
    ensures { Spells (λ h. h.entries) result (lines_read 1 nothing_read (pieces feed text.now)) }
{
    let mut left = text;
    let mut at = 1u64;
    'lines: loop {
        let Ok((line, more)) = cut(left, FEED) else {
            return Err(TraceFault::Line { at });
        };
        if is_text(line, "end") {
            return ended(alloc, at, reading, more);
        }
        one_on(alloc, at, reading, line)?;
        left = more;
        at += 1;
    }
}

// The history that these lines spell. Its list has room for their entries from the start.
fn lines(alloc: Global, text: &[u8]) -> Result<History, TraceFault>
    requires { length text.now ≤ 268435456 }
    ensures { Spells (λ h. h.entries) result (lines_read 1 nothing_read (pieces feed text.now)) }
{
    match Reading::roomy(alloc, entries_in(text)) {
        Ok(mut reading) => {
            let history = lines_with(alloc, &mut reading, text);
            // (handed to `drop`, it is given back by one call)
            drop(reading);
            history
        }
        Err(NoMemory) => Err(TraceFault::NoMemory),
    }
}

/// The history that the bytes spell behind the line `#trace`, or the first fault that they have. The scenario stands
/// for itself: a trace tells all that its history has. Want of memory may come at any time.
#[tactic(auto, unfolding(crate::specs::Trace::history_of))]
pub fn read_trace(alloc: Global, _scenario: &Scenario, bytes: &[u8]) -> Result<History, TraceFault>
    ensures ok { IfOk result (λ h. history_of bytes.now ≡ Ok h.entries) }
    ensures fault { IfErr result (λ fault. (fault ≡ TraceFault.NoMemory) ⊎ (history_of bytes.now ≡ Err fault)) }
{
    if bytes.len() > MOST_BYTES {
        return Err(TraceFault::TooLong);
    }
    match behind_mark(bytes) {
        None => Err(TraceFault::Line { at: 0 }),
        Some(text) => lines(alloc, text),
    }
}
