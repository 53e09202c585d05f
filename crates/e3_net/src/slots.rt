// The slots of a row, in which each names the place of the next one to its site; and tables of places.
ghost use Rattle.std.specs.Prelude.{◌≡◌, ◌+◌, ◌<◌, drop, length, replicate, slice_index_or, IfOk};
ghost use Rattle.std.specs.VecDeque.{deque_capacity};
ghost use Rattle.e3_net.specs.Chains.{begins_live, gone_before, links, with_copies, with_next};

use e3_types::{NoMemory, Packet};
use std::alloc::Global;
use std::collections::VecDeque;

/// A packet, how many copies of it are left, and the place of the next one that waits for its site, counted from 1; 0 where
/// there is none.
#[derive(Drop)]
pub struct Slot {
    pub packet: Packet,
    pub copies: u8,
    pub next: u64,
}

const NO_PLACE: u64 = 0;

// One for each site, and one before them.
const SITES: usize = 65;

/// A table in which no site has a place. Want of memory is the only error.
pub(crate) fn no_places(alloc: Global) -> Result<Vec<u64>, NoMemory>
    ensures { IfOk result (λ places. places.items ≡ replicate 65 0) }
{
    match vec![in alloc; NO_PLACE; SITES] {
        Ok(places) => Ok(places),
        Err(_) => Err(NoMemory),
    }
}

/// The place of a site in a table; 0 where it has none.
pub(crate) fn place_at(places: &Vec<u64>, site: u32) -> u64
    ensures { result ≡ slice_index_or places.now.items site 0 }
{
    if site as usize >= places.len() {
        return 0;
    }
    places[site as usize]
}

/// A copy of the slot at an index.
pub(crate) fn slot_at(slots: &VecDeque<Slot>, at: usize) -> Slot
    requires { at < length slots.now.items }
    ensures { result ≡ slice_index_or slots.now.items at result }
{
    let slot = &slots[at];
    Slot {
        packet: slot.packet.copy(),
        copies: slot.copies,
        next: slot.next,
    }
}

/// The slot at an index names another next place.
pub(crate) fn set_next(slots: &mut VecDeque<Slot>, at: usize, next: u64)
    requires { at < length slots.old.items }
    ensures items { slots.new.items ≡ with_next slots.old.items at next }
    ensures len { length slots.new.items ≡ length slots.old.items }
    ensures capacity { deque_capacity slots.new ≡ deque_capacity slots.old }
{
    slots[at].next = next;
}

/// The slot at an index has so many copies left.
pub(crate) fn set_copies(slots: &mut VecDeque<Slot>, at: usize, copies: u8)
    requires { at < length slots.old.items }
    ensures items { slots.new.items ≡ with_copies slots.old.items at copies }
    ensures len { length slots.new.items ≡ length slots.old.items }
    ensures capacity { deque_capacity slots.new ≡ deque_capacity slots.old }
{
    slots[at].copies = copies;
}

// The first slot waits, if there is one.
fn begins_live(slots: &VecDeque<Slot>) -> bool
    ensures { result ≡ begins_live (links slots.now.items) }
{
    match slots.front() {
        Some(slot) => slot.copies > 0,
        None => true,
    }
}

/// The slots before the first that waits leave the row. How many those were.
pub(crate) fn drop_gone(slots: &mut VecDeque<Slot>) -> u64
    ensures number { result ≡ gone_before (links slots.old.items) }
    ensures items { slots.new.items ≡ drop result slots.old.items }
    ensures len { length slots.old.items ≡ result + length slots.new.items }
    ensures capacity { deque_capacity slots.new ≡ deque_capacity slots.old }
{
    let before = slots.len();
    'gone: while !begins_live(slots) {
        let _ = slots.pop_front();
    }
    (before - slots.len()) as u64
}
