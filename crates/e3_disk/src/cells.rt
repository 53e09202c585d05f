// Bytes in memory that are 00 at first.
ghost use Rattle.std.specs.Prelude.{◌≡◌, ◌+◌, ◌-◌, ◌≤◌, ◌++◌, max, length, take, drop, replicate, vec_capacity, IfOk};
ghost use Rattle.e3_disk.specs.Images.{Holds};

use e3_types::NoMemory;
use std::alloc::Global;
use std::marker::Model;

/// Bytes, 00 at first. They take room for the most that they may be, and touch its memory no further than a write reached.
#[derive(Drop)]
pub struct Cells {
    front: Vec<u8>,
    blank: usize,
    room: usize,
}

impl Model for Cells {
    ghost use Rattle.std.specs.Prelude.{◌≤◌, length, vec_capacity};
    ghost use Rattle.e3_disk.specs.Padding.{Cells as View, padded};

    ghost Value = { View };

    ghost view = { λ c. record { bytes = padded c.blank c.front.items; touched = length c.front.items; blank = c.blank; room = c.room } };

    ghost invariant = { λ c. (length c.front.items ≤ c.room) × (c.blank ≤ c.room) × (c.room ≤ vec_capacity c.front) };
}

// Writes within the room that a buffer has, over what is there and past its end.
fn overwrite(buffer: &mut Vec<u8>, place: usize, bytes: &[u8])
    requires within { place ≤ length buffer.old.items }
    requires room { place + length bytes.now ≤ vec_capacity buffer.old }
    ensures written { Holds buffer.old.items place bytes.now buffer.new.items }
    ensures len { length buffer.new.items ≡ max (length buffer.old.items) (place + length bytes.now) }
    ensures capacity { vec_capacity buffer.old ≤ vec_capacity buffer.new }
{
    let over = (buffer.len() - place).min(bytes.len());
    let (front, back) = bytes.split_at(over);
    buffer[place..place + over].copy_from_slice(front);
    let _ = buffer.extend_from_slice(back);
}

// Bytes 00 are added up to this place.
fn stretch(buffer: &mut Vec<u8>, place: usize)
    requires short { length buffer.old.items ≤ place }
    requires room { place ≤ vec_capacity buffer.old }
    ensures items { buffer.new.items ≡ buffer.old.items ++ replicate (place - length buffer.old.items) 0 }
    ensures capacity { vec_capacity buffer.old ≤ vec_capacity buffer.new }
{
    let _ = buffer.resize(place, 0);
}

// Each byte becomes this one.
fn fill(bytes: &mut [u8], byte: u8)
    ensures { bytes.new ≡ replicate (length bytes.old) byte }
{
    for b in bytes.iter_mut() {
        *b = byte;
    }
}

impl Cells {
    /// So many bytes 00, with room for so many.
    pub fn new(alloc: Global, blank: usize, room: usize) -> Result<Cells, NoMemory>
        requires { blank ≤ room }
        ensures bytes { IfOk result (λ c. c.bytes ≡ replicate blank 0) }
        ensures room { IfOk result (λ c. (c.blank ≡ blank) × (c.room ≡ room) × (c.touched ≡ 0)) }
    {
        match Vec::with_capacity(alloc, room) {
            Ok(front) => Ok(Cells { front, blank, room }),
            Err(_) => Err(NoMemory),
        }
    }

    /// How many bytes they are.
    pub fn len(&self) -> usize
        ensures { result ≡ length self.now.bytes }
    {
        self.front.len().max(self.blank)
    }

    /// What lies before this place is touched.
    pub fn reach(&mut self, place: usize)
        requires { place ≤ length self.old.bytes }
        ensures same { self.new ≡ record self.old { touched = max self.old.touched place } }
    {
        if self.front.len() < place {
            stretch(&mut self.front, place);
        }
    }

    /// Writes over what is there and past its end.
    pub fn put_at(&mut self, place: usize, bytes: &[u8])
        requires within { place ≤ length self.old.bytes }
        requires room { place + length bytes.now ≤ self.old.room }
        ensures written { Holds self.old.bytes place bytes.now self.new.bytes }
        ensures len { length self.new.bytes ≡ max (length self.old.bytes) (place + length bytes.now) }
        ensures touched { self.new.touched ≡ max self.old.touched (place + length bytes.now) }
        ensures room { (self.new.blank ≡ self.old.blank) × (self.new.room ≡ self.old.room) }
    {
        self.reach(place);
        overwrite(&mut self.front, place, bytes);
    }

    /// Reads the bytes from a place on.
    pub fn read(&self, place: usize, into: &mut [u8])
        requires { place + length into.old ≤ length self.now.bytes }
        ensures { into.new ≡ take (length into.old) (drop place self.now.bytes) }
    {
        let from = place.min(self.front.len());
        let to = (place + into.len()).min(self.front.len());
        fill(into, 0);
        into[..to - from].copy_from_slice(&self.front[from..to]);
    }

    /// Writes the bytes between two places of others at the first of these places.
    pub fn put_range(&mut self, of: &Cells, from: usize, to: usize)
        requires ends { from ≤ to }
        requires touched { to ≤ of.now.touched }
        requires within { from ≤ length self.old.bytes }
        requires room { to ≤ self.old.room }
        ensures written { Holds self.old.bytes from (take (to - from) (drop from of.now.bytes)) self.new.bytes }
        ensures len { length self.new.bytes ≡ max (length self.old.bytes) to }
        ensures touched { self.new.touched ≡ max self.old.touched to }
        ensures room { (self.new.blank ≡ self.old.blank) × (self.new.room ≡ self.old.room) }
    {
        self.put_at(from, &of.front[from..to]);
    }

    /// The bytes between two places become this one.
    pub fn fill_range(&mut self, from: usize, to: usize, byte: u8)
        requires ends { from ≤ to }
        requires touched { to ≤ self.old.touched }
        ensures filled { take (to - from) (drop from self.new.bytes) ≡ replicate (to - from) byte }
        ensures room { (self.new.touched ≡ self.old.touched) × (self.new.blank ≡ self.old.blank) × (self.new.room ≡ self.old.room) }
    {
        fill(&mut self.front[from..to], byte);
    }

    /// They become as others, of as many at first.
    pub fn set(&mut self, of: &Cells)
        requires blank { self.old.blank ≡ of.now.blank }
        requires room { self.old.room ≡ of.now.room }
        ensures { self.new ≡ of.now }
    {
        self.front.clear();
        let _ = self.front.extend_from_slice(&of.front);
    }
}
