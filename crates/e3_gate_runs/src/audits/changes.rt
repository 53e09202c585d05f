// Histories with one change each.
use e3_types::{Copied, Entry, NoMemory};
use e3_world::History;
use std::alloc::Global;

/// What stands in place of an entry, as how far behind it each entry was: nothing, the entry twice, or the next and then it.
pub const CHANGES: [&[usize]; 3] = [&[], &[0, 0], &[1, 0]];

// No change.
const SAME: &[usize] = &[0];

// Adds a copy of the entry at this place; nothing past the end.
fn add(alloc: Global, entries: &[Entry], at: usize, out: &mut History) -> Result<(), NoMemory> {
    let Some(entry) = entries.get(at) else {
        return Ok(());
    };
    let copy = entry.copied(alloc)?;
    out.reserve(1)?;
    out.push(copy);
    Ok(())
}

// Adds copies of the entries so far behind this place.
fn add_behind(
    alloc: Global,
    entries: &[Entry],
    at: usize,
    change: &[usize],
    out: &mut History,
) -> Result<(), NoMemory> {
    for behind in change {
        add(alloc, entries, at.saturating_add(*behind), out)?;
    }
    Ok(())
}

/// The entries with this change at this place.
pub fn changed(
    alloc: Global,
    entries: &[Entry],
    change: &[usize],
    at: usize,
) -> Result<History, NoMemory> {
    let mut out = History::new(alloc);
    for place in 0..entries.len() {
        let here = if place == at { change } else { SAME };
        add_behind(alloc, entries, place, here, &mut out)?;
    }
    Ok(out)
}
