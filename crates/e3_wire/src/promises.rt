// What is promised to each owner, and what entries use of it.
ghost use Rattle.std.specs.Prelude.{◌≡◌, ◌+◌, ◌-◌, ◌^◌, ◌<◌, ◌≤◌, length, replicate, slice_set, slice_index_or, IfOk};
ghost use Rattle.e3_wire.specs.Marks.{nothing, used_by};

use crate::Note;
use e3_types::{Act, NoMemory};
use std::alloc::Global;

const NOTHING: Note = Note { places: 0, room: 0 };

/// Notes of so many owners, to whom nothing is promised. Want of memory is the only error.
pub(crate) fn no_notes(alloc: Global, owners: usize) -> Result<Vec<Note>, NoMemory>
    ensures { IfOk result (λ notes. notes.items ≡ replicate owners nothing) }
{
    match vec![in alloc; NOTHING; owners] {
        Ok(notes) => Ok(notes),
        Err(_) => Err(NoMemory),
    }
}

/// Promises the owner so many places more, and room for so many packets more.
pub(crate) fn note_claim(notes: &mut Vec<Note>, owner: u32, places: u32, outs: u32)
    requires owner { owner < length notes.old.items }
    requires places { (slice_index_or notes.old.items owner nothing).places + places < 2 ^ 64 }
    requires room { (slice_index_or notes.old.items owner nothing).room + outs < 2 ^ 64 }
    ensures { notes.new.items ≡ slice_set notes.old.items owner (record {
      places = (slice_index_or notes.old.items owner nothing).places + places;
      room = (slice_index_or notes.old.items owner nothing).room + outs;
    }) }
{
    let was = notes[owner as usize];
    notes[owner as usize] = Note {
        places: was.places + u64::from(places),
        room: was.room + u64::from(outs),
    };
}

/// Takes the promise of one place and of room for so many packets back.
pub(crate) fn unnote_claim(notes: &mut Vec<Note>, owner: u32, outs: u32)
    requires { owner < length notes.old.items }
    ensures { notes.new.items ≡ slice_set notes.old.items owner (record {
      places = (slice_index_or notes.old.items owner nothing).places - 1;
      room = (slice_index_or notes.old.items owner nothing).room - outs;
    }) }
{
    let was = notes[owner as usize];
    notes[owner as usize] = Note {
        places: was.places.saturating_sub(1),
        room: was.room.saturating_sub(u64::from(outs)),
    };
}

/// Takes all back that is promised to the owner, and answers how much that was.
pub(crate) fn note_freed(notes: &mut Vec<Note>, owner: u32) -> Note
    requires { owner < length notes.old.items }
    ensures notes { notes.new.items ≡ slice_set notes.old.items owner nothing }
    ensures was { result ≡ slice_index_or notes.old.items owner nothing }
{
    let was = notes[owner as usize];
    notes[owner as usize] = NOTHING;
    was
}

// What an act leaves of a note.
fn used_by(note: Note, act: &Act) -> Note
    ensures { result ≡ used_by note act.now }
{
    let places = note.places.saturating_sub(1);
    match act {
        Act::Step { outs, .. } => Note {
            places,
            room: note.room.saturating_sub(outs.len()),
        },
        Act::Fall { inputs, .. } => Note {
            places: note.places.saturating_sub(inputs.len()),
            room: 0,
        },
        Act::Drop { .. } | Act::Parts { .. } | Act::Line { .. } => note,
        _ => Note {
            places,
            room: note.room,
        },
    }
}

/// Takes off a note what an act of its owner uses, and answers how much that is.
pub(crate) fn note_act(notes: &mut Vec<Note>, owner: u32, act: &Act) -> Note
    requires { owner < length notes.old.items }
    ensures notes { notes.new.items ≡ slice_set notes.old.items owner (used_by (slice_index_or notes.old.items owner nothing) act.now) }
    ensures places { result.places ≡ (slice_index_or notes.old.items owner nothing).places
        - (used_by (slice_index_or notes.old.items owner nothing) act.now).places }
    ensures room { result.room ≡ (slice_index_or notes.old.items owner nothing).room
        - (used_by (slice_index_or notes.old.items owner nothing) act.now).room }
{
    let was = notes[owner as usize];
    let left = used_by(was, act);
    notes[owner as usize] = left;
    Note {
        places: was.places.saturating_sub(left.places),
        room: was.room.saturating_sub(left.room),
    }
}
