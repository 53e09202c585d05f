// A source in memory.
ghost use Rattle.std.specs.Prelude.{◌≡◌, ◌<◌, ◌≤◌, ◌↔◌, [], Some, length, take, min, IfOk, IsErr, OnErr, Contains};
ghost use Rattle.std.specs.Io.{ReadsAtMost};
ghost use Rattle.e3_outside.specs.Faults.{count_up};
ghost use Rattle.e3_outside.specs.Memory.{failed_read, read_of};

use crate::calls::Calls;
use crate::{Failed, Source};
use e3_types::List;
use std::marker::Model;

/// A source in memory, whose calls take a bounded number of bytes each, and fail where they are told to.
#[derive(Drop)]
pub struct MemSource {
    bytes: List<u8>,
    place: usize,
    calls: Calls,
}

impl Model for MemSource {
    ghost use Rattle.std.specs.Prelude.{◌≤◌, length, drop};
    ghost use Rattle.e3_outside.specs.Memory.{SourceState};

    ghost Value = { SourceState };

    ghost view = { λ s. record { left = drop s.place s.bytes; most = s.calls.most; fails = s.calls.fails; calls = s.calls.made; faults = s.calls.faults } };

    ghost invariant = { λ s. (s.place ≤ length s.bytes) × (1 ≤ s.calls.most) };
}

impl MemSource {
    /// A source of these bytes. Each call takes at most `most` of them. Calls are numbered from 1, and those whose
    /// numbers stand in `fails`, in any order, fail.
    pub fn new(bytes: List<u8>, most: u64, fails: List<u64>) -> MemSource
        requires { 1 ≤ most }
        ensures { result ≡ record { left = bytes; most = most; fails = fails; calls = 0; faults = 0 } }
    {
        MemSource {
            bytes,
            place: 0,
            calls: Calls::new(most, fails),
        }
    }

    /// The bytes that are left to be read.
    pub fn left(&self) -> &[u8]
        ensures { result.now ≡ self.now.left }
    {
        &self.bytes.as_slice()[self.place..]
    }
}

impl Source for MemSource {
    ghost use Rattle.std.specs.Prelude.{Some};

    ghost left = { λ s. Some s.left };

    ghost faults = { λ s. s.faults };

    /// Fails exactly in the calls that are listed, and takes as many bytes as it may otherwise.
    fn read(&mut self, into: &mut [u8]) -> Result<usize, Failed>
        requires { 0 < length into.old }
        ensures bound { ReadsAtMost result into.new }
        ensures bytes { IfOk result (λ n. take n into.new ≡ take n self.old.left) }
        ensures end { IfOk result (λ n. n ≡ 0 → self.old.left ≡ []) }
        ensures never_falls { self.old.faults ≤ self.new.faults }
        ensures fails { IsErr result ↔ Contains self.old.fails (count_up self.old.calls) }
        ensures count { IfOk result (λ n. n ≡ min self.old.most (min (length self.old.left) (length into.old))) }
        ensures after_ok { IfOk result (λ n. self.new ≡ read_of n self.old) }
        ensures after_err { OnErr result (self.new ≡ failed_read self.old) }
    {
        if self.calls.begin() {
            self.calls.fail();
            return Err(Failed);
        }
        let count = copy_front(&self.bytes.as_slice()[self.place..], self.calls.most, into);
        self.place += count;
        Ok(count)
    }
}

// Copies the front: as much as may be taken and as there is room for.
fn copy_front(front: &[u8], most: usize, into: &mut [u8]) -> usize
    ensures count { result ≡ min most (min (length front.now) (length into.old)) }
    ensures copied { take result into.new ≡ take result front.now }
{
    let count = most.min(front.len().min(into.len()));
    into[..count].copy_from_slice(&front[..count]);
    count
}
