// The queue of the packets that are pending, in ascending order of their numbers. Those to a site form a chain.
ghost use Rattle.std.specs.Prelude.{◌≡◌, ◌+◌, ◌-◌, ◌^◌, ◌<◌, ◌≤◌, ◌++◌, [], take, IfOk, OnOk, option_copied, option_map, find, length, replicate, slice_get};
ghost use Rattle.std.specs.VecDeque.{deque_len, deque_capacity};
ghost use Rattle.e3_net.specs.Traffic.{goes_to, less_one_to, queue_in, wait};

use crate::slots::{Slot, drop_gone, no_places, place_at, set_copies, set_next, slot_at};
use e3_types::{List, NoMemory, Packet};
use std::alloc::Global;
use std::collections::VecDeque;
use std::marker::Model;

// So many copies of a packet behind those before, as far as there may be more.
fn add_copies(
    out: &mut List<Packet>,
    packet: &Packet,
    copies: u8,
    most: u32,
) -> Result<(), NoMemory>
    requires { length out.old ≤ most }
    ensures { OnOk result (out.new ≡ take most (out.old ++ replicate copies packet.now)) }
{
    for _ in 0..copies {
        if out.len() < u64::from(most) {
            out.push(packet.copy())?;
        }
    }
    Ok(())
}

/// The packets that wait, in a row. What was taken from between others stays in its slot until it is the first of the row.
#[derive(Drop)]
pub(crate) struct Queue {
    slots: VecDeque<Slot>,
    // How many slots left the row. The place of a slot is its number of all, counted from 1.
    gone: u64,
    // The places of the first and of the last slot that waits for each site.
    firsts: Vec<u64>,
    lasts: Vec<u64>,
    // How many slots wait.
    count: u64,
}

impl Model for Queue {
    ghost use Rattle.std.specs.Prelude.{◌+◌, ◌-◌, length};
    ghost use Rattle.std.specs.VecDeque.{deque_len, deque_capacity};
    ghost use Rattle.e3_net.specs.Chains.{QueueStands, QueueView, links, shown};

    ghost Value = { QueueView };

    ghost view = { λ q. record {
      items = shown q.slots.items;
      room = deque_capacity q.slots - deque_len q.slots;
      given = q.gone + length q.slots.items;
    } };

    ghost invariant = { λ q. QueueStands q.gone (links q.slots.items) q.firsts.items q.lasts.items q.count };
}

// Makes room for so many slots more.
fn make_room(slots: &mut VecDeque<Slot>, outs: u64) -> Result<(), NoMemory>
    ensures items { slots.new.items ≡ slots.old.items }
    ensures grows { deque_capacity slots.old ≤ deque_capacity slots.new }
    ensures ok { OnOk result (deque_len slots.new + outs ≤ deque_capacity slots.new) }
{
    match slots.try_reserve(outs as usize) {
        Ok(()) => Ok(()),
        Err(_) => Err(NoMemory),
    }
}

impl Queue {
    /// A queue in which nothing waits. Want of memory is the only error.
    pub(crate) fn new(alloc: Global) -> Result<Queue, NoMemory>
        ensures items { IfOk result (λ q. q.items ≡ []) }
        ensures given { IfOk result (λ q. q.given ≡ 0) }
    {
        let firsts = no_places(alloc)?;
        let lasts = no_places(alloc)?;
        Ok(Queue {
            slots: VecDeque::new(alloc),
            gone: 0,
            firsts,
            lasts,
            count: 0,
        })
    }

    /// Makes room for so many packets more. Want of memory is the only error.
    pub(crate) fn reserve(&mut self, outs: u64) -> Result<(), NoMemory>
        ensures items { self.new.items ≡ self.old.items }
        ensures given { self.new.given ≡ self.old.given }
        ensures grows { self.old.room ≤ self.new.room }
        ensures ok { OnOk result (outs ≤ self.new.room) }
    {
        make_room(&mut self.slots, outs)
    }

    /// So many copies of a packet wait behind the others. It takes no memory.
    pub(crate) fn add(&mut self, packet: Packet, copies: u8)
        requires room { 1 ≤ self.old.room }
        requires few { self.old.given < 2 ^ 64 - 1 }
        requires low { 0 < copies → packet.to ≤ 64 }
        ensures items { self.new.items ≡ self.old.items ++ wait packet copies }
        ensures room { self.old.room ≤ self.new.room + 1 }
        ensures given { self.new.given ≤ self.old.given + 1 }
    {
        if copies == 0 {
            return;
        }
        let site = packet.to;
        let place = self.gone + self.slots.len() as u64 + 1;
        let slot = Slot {
            packet,
            copies,
            next: 0,
        };
        if place_at(&self.firsts, site) == 0 {
            self.firsts[site as usize] = place;
            self.lasts[site as usize] = place;
            self.slots.push_back_reserved(slot);
            self.count += 1;
            return;
        }
        let last = place_at(&self.lasts, site);
        set_next(&mut self.slots, (last - self.gone - 1) as usize, place);
        self.lasts[site as usize] = place;
        self.slots.push_back_reserved(slot);
        self.count += 1;
    }

    /// Takes a copy of the first packet to the site. None exactly where none waits for it.
    pub(crate) fn take(&mut self, site: u32) -> Option<Packet>
        ensures packet { result ≡ option_map (λ w. w.packet) (find (goes_to site) self.old.items) }
        ensures items { self.new.items ≡ less_one_to site self.old.items }
        ensures room { self.old.room ≤ self.new.room }
        ensures given { self.new.given ≤ self.old.given }
    {
        let place = place_at(&self.firsts, site);
        if place == 0 {
            return None;
        }
        let at = (place - self.gone - 1) as usize;
        let slot = slot_at(&self.slots, at);
        if slot.copies > 1 {
            set_copies(&mut self.slots, at, slot.copies - 1);
            return Some(slot.packet);
        }
        self.firsts[site as usize] = slot.next;
        set_copies(&mut self.slots, at, 0);
        self.gone += drop_gone(&mut self.slots);
        self.count -= 1;
        Some(slot.packet)
    }

    /// The first packet to the site; it stays. None exactly where none waits for it.
    pub(crate) fn first_to(&self, site: u32) -> Option<&Packet>
        ensures { option_copied result ≡ option_map (λ w. w.packet) (find (goes_to site) self.now.items) }
    {
        let place = place_at(&self.firsts, site);
        if place == 0 {
            return None;
        }
        let slot = &self.slots[(place - self.gone - 1) as usize];
        Some(&slot.packet)
    }

    /// The first packet of all; it stays. None exactly where none waits.
    pub(crate) fn first(&self) -> Option<&Packet>
        ensures { option_copied result ≡ option_map (λ w. w.packet) (slice_get self.now.items 0) }
    {
        match self.slots.front() {
            Some(slot) => Some(&slot.packet),
            None => None,
        }
    }

    /// How many packets wait. One of which two copies are left is counted once.
    pub(crate) fn len(&self) -> u64
        ensures { result ≡ length self.now.items }
    {
        self.count
    }

    /// The first packets to the site, each as often as it has copies, so many at most; they stay. Want of memory is the only
    /// error.
    pub(crate) fn first_few(
        &self,
        alloc: Global,
        site: u32,
        most: u32,
    ) -> Result<List<Packet>, NoMemory>
        ensures { IfOk result (λ few. few ≡ take most (queue_in site self.now.items)) }
    {
        let mut few = List::new(alloc);
        let mut place = place_at(&self.firsts, site);
        'walk: while place > 0 && few.len() < u64::from(most) {
            let w = &self.slots[(place - self.gone - 1) as usize];
            add_copies(&mut few, &w.packet, w.copies, most)?;
            place = w.next;
        }
        Ok(few)
    }
}
