// Bytes in memory, with the range that is not yet durable.
ghost use Rattle.std.specs.Prelude.{◌≡◌, ◌+◌, ◌-◌, ◌≤◌, ◌^◌, ◌&&◌, nat_le, if◌then◌else◌, max, length, take, drop, Ok, Err, IfOk, IfErr, OnOk};
ghost use Rattle.e3_disk.specs.Images.{Holds, Torn, Tears, Within, Only, blank_bytes};
ghost use Rattle.e3_disk.specs.Leaves.{kept_by};
ghost use Rattle.e3_disk.specs.Stored.{settled, joined, written, left};

use crate::DiskFault;
use crate::cells::Cells;
use crate::panel::Turn;
use e3_types::{Leave, NoMemory};
use std::alloc::Global;

/// The bytes that a read gives, and those that are durable. They differ only in one range.
#[derive(Drop)]
pub struct Store {
    pub content: Cells,
    pub durable: Cells,
    pub from: usize,
    pub to: usize,
    ghost torn: { Torn from (to - from) durable.bytes content.bytes },
    ghost range: { (from ≤ to) × (from ≤ length durable.bytes) × (to ≤ content.touched) },
    ghost within: { (content.touched ≤ length content.bytes) × (length content.bytes ≤ content.room) },
    ghost durably: { (durable.touched ≤ length durable.bytes) × (length durable.bytes ≤ durable.room) },
    ghost alike: { (durable.blank ≡ content.blank) × (durable.room ≡ content.room) × (content.room ≤ 2 ^ 30) },
}

// What the leave keeps of a range becomes durable.
fn keep_range(content: &mut Cells, durable: &mut Cells, from: usize, to: usize, leave: Leave)
    requires ends { from ≤ to }
    requires touched { to ≤ content.old.touched }
    requires long { (content.old.touched ≤ length content.old.bytes) × (durable.old.touched ≤ length durable.old.bytes) }
    requires within { from ≤ length durable.old.bytes }
    requires room { to ≤ durable.old.room }
    ensures kept { Holds durable.old.bytes from (kept_by leave (take (to - from) (drop from content.old.bytes))) durable.new.bytes }
    ensures len { length durable.new.bytes ≤ max (length durable.old.bytes) to }
    ensures long { durable.new.touched ≤ length durable.new.bytes }
    ensures content { (content.new.blank ≡ content.old.blank) × (content.new.room ≡ content.old.room) }
    ensures durable { (durable.new.blank ≡ durable.old.blank) × (durable.new.room ≡ durable.old.room) }
{
    match leave {
        Leave::None => durable.put_range(content, from, from),
        Leave::Half => durable.put_range(content, from, from + (to - from) / 2),
        Leave::All => durable.put_range(content, from, to),
        Leave::Junk(byte) => {
            content.fill_range(from, to, byte);
            durable.put_range(content, from, to);
        }
    }
}

impl Store {
    ghost use Rattle.e3_disk.specs.Memory.{stored_of};
    ghost use Rattle.e3_disk.specs.Panel.{by_turn};
    ghost use Rattle.e3_disk.specs.declared.fault.DiskFault.TheVariants.{Failed};

    /// The bytes 00 of a blank disk, with room for so many bytes.
    pub fn blank(alloc: Global, room: usize) -> Result<Store, NoMemory>
        requires least { 2 ≤ room }
        requires most { room ≤ 2 ^ 30 }
        ensures bytes { IfOk result (λ s. stored_of s ≡ record { content = blank_bytes room; durable = blank_bytes room; from = 0; to = 0 }) }
        ensures room { IfOk result (λ s. s.content.room ≡ room) }
        ensures only { IfOk result (λ s. Only (blank_bytes room) (Torn s.from (s.to - s.from) s.durable.bytes)) }
    {
        let blank = room / 2 + 1;
        let content = Cells::new(alloc, blank, room)?;
        let durable = Cells::new(alloc, blank, room)?;
        Ok(Store {
            content,
            durable,
            from: 0,
            to: 0,
        })
    }

    /// Makes the range durable, and begins an empty one at this place.
    fn settle(&mut self, place: usize)
        requires { place ≤ length self.old.content.bytes }
        ensures content { self.new.content.bytes ≡ self.old.content.bytes }
        ensures durable { self.new.durable.bytes ≡ self.new.content.bytes }
        ensures empty { (self.new.from ≡ place) × (self.new.to ≡ place) }
        ensures after { stored_of self.new ≡ settled place (stored_of self.old) }
        ensures room { self.new.content.room ≡ self.old.content.room }
    {
        self.durable.put_range(&self.content, self.from, self.to);
        self.content.reach(place);
        self.from = place;
        self.to = place;
    }

    // A write that touches the range.
    fn write_near(&mut self, place: usize, bytes: &[u8])
        requires within { place ≤ length self.old.content.bytes }
        requires room { place + length bytes.now ≤ self.old.content.room }
        requires behind { place ≤ self.old.to }
        requires before { self.old.from ≤ place + length bytes.now }
        ensures after { stored_of self.new ≡ joined place bytes.now (stored_of self.old) }
        ensures room { self.new.content.room ≡ self.old.content.room }
        ensures images { Tears place (length bytes.now)
            (Torn self.old.from (self.old.to - self.old.from) self.old.durable.bytes)
            (Torn self.new.from (self.new.to - self.new.from) self.new.durable.bytes) }
    {
        let end = place + bytes.len();
        self.content.put_at(place, bytes);
        self.from = self.from.min(place);
        self.to = self.to.max(end);
    }

    // A write touches the range after this: where it would not, the range is made durable first.
    fn make_near(&mut self, place: usize, count: usize)
        requires within { place ≤ length self.old.content.bytes }
        requires room { place + count ≤ self.old.content.room }
        ensures after { stored_of self.new ≡ (if nat_le place self.old.to && nat_le self.old.from (place + count) then stored_of self.old else settled place (stored_of self.old)) }
        ensures room { self.new.content.room ≡ self.old.content.room }
        ensures behind { place ≤ self.new.to }
        ensures before { self.new.from ≤ place + count }
        ensures images { Within
            (Torn self.old.from (self.old.to - self.old.from) self.old.durable.bytes)
            (Torn self.new.from (self.new.to - self.new.from) self.new.durable.bytes) }
    {
        if self.to < place || place + count < self.from {
            self.settle(place);
        }
    }

    /// Writes over what is there and past the end.
    pub fn write(&mut self, place: usize, bytes: &[u8])
        requires within { place ≤ length self.old.content.bytes }
        requires room { place + length bytes.now ≤ self.old.content.room }
        ensures after { stored_of self.new ≡ written place bytes.now (stored_of self.old) }
        ensures room { self.new.content.room ≡ self.old.content.room }
        ensures images { Tears place (length bytes.now)
            (Torn self.old.from (self.old.to - self.old.from) self.old.durable.bytes)
            (Torn self.new.from (self.new.to - self.new.from) self.new.durable.bytes) }
    {
        self.make_near(place, bytes.len());
        self.write_near(place, bytes);
    }

    /// What a read gives is durable, and nothing else may be left.
    pub fn sync(&mut self)
        ensures after { stored_of self.new ≡ settled 0 (stored_of self.old) }
        ensures room { self.new.content.room ≡ self.old.content.room }
        ensures only { Only self.new.content.bytes (Torn self.new.from (self.new.to - self.new.from) self.new.durable.bytes) }
    {
        self.settle(0);
    }

    /// Stops inside a write, whose range counts as pending.
    pub fn stop_in_write(&mut self, place: usize, bytes: &[u8], leave: Leave)
        requires within { place ≤ length self.old.content.bytes }
        requires room { place + length bytes.now ≤ self.old.content.room }
        ensures after { stored_of self.new ≡ left leave (written place bytes.now (stored_of self.old)) }
        ensures room { self.new.content.room ≡ self.old.content.room }
        ensures images { Tears place (length bytes.now)
            (Torn self.old.from (self.old.to - self.old.from) self.old.durable.bytes)
            (Torn self.new.from (self.new.to - self.new.from) self.new.durable.bytes) }
    {
        self.write(place, bytes);
        self.stop(leave);
    }

    /// Does of a write what its turn says: it succeeds, it stops inside, or it changes nothing.
    pub fn write_by(
        &mut self,
        turn: Turn,
        place: usize,
        bytes: &[u8],
        leave: Leave,
    ) -> Result<(), DiskFault>
        requires within { place ≤ length self.old.content.bytes }
        requires room { place + length bytes.now ≤ self.old.content.room }
        ensures answer { result ≡ by_turn turn (Ok tt) (Err Failed) (Err Failed) }
        ensures after { stored_of self.new ≡ by_turn turn (written place bytes.now (stored_of self.old))
            (left leave (written place bytes.now (stored_of self.old))) (stored_of self.old) }
        ensures written { OnOk result (Holds self.old.content.bytes place bytes.now self.new.content.bytes) }
        ensures error { IfErr result (λ e. e ≡ Failed) }
        ensures room { self.new.content.room ≡ self.old.content.room }
        ensures images { Tears place (length bytes.now)
            (Torn self.old.from (self.old.to - self.old.from) self.old.durable.bytes)
            (Torn self.new.from (self.new.to - self.new.from) self.new.durable.bytes) }
    {
        match turn {
            Turn::Go => {
                self.write(place, bytes);
                Ok(())
            }
            Turn::Stop => {
                self.stop_in_write(place, bytes, leave);
                Err(DiskFault::Failed)
            }
            Turn::Fail => Err(DiskFault::Failed),
        }
    }

    /// Stops: what is durable and what the leave keeps of the range is what stands from now on.
    pub fn stop(&mut self, leave: Leave)
        ensures after { stored_of self.new ≡ left leave (stored_of self.old) }
        ensures room { self.new.content.room ≡ self.old.content.room }
        ensures images { Within
            (Torn self.old.from (self.old.to - self.old.from) self.old.durable.bytes)
            (Torn self.new.from (self.new.to - self.new.from) self.new.durable.bytes) }
        ensures only { Only self.new.content.bytes (Torn self.new.from (self.new.to - self.new.from) self.new.durable.bytes) }
    {
        keep_range(
            &mut self.content,
            &mut self.durable,
            self.from,
            self.to,
            leave,
        );
        self.content.set(&self.durable);
        self.from = 0;
        self.to = 0;
    }
}
