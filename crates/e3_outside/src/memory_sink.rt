// A sink in memory.
ghost use Rattle.std.specs.Prelude.{◌≡◌, ◌<◌, ◌≤◌, ◌-◌, ◌↔◌, ◌⊎◌, [], Some, length, min, IfOk, IsErr, OnErr, Contains};
ghost use Rattle.e3_outside.specs.Faults.{count_up};
ghost use Rattle.e3_outside.specs.Memory.{failed_write, write_of};

use crate::calls::Calls;
use crate::{Failed, Sink};
use e3_types::{List, NoMemory};
use std::alloc::Global;
use std::marker::Model;

/// A sink in memory, which has its room from the start. Its calls take a bounded number of bytes each, and fail where
/// they are told to and where no room is left.
#[derive(Drop)]
pub struct MemSink {
    calls: Calls,
    bytes: Vec<u8>,
    room: usize,
}

impl Model for MemSink {
    ghost use Rattle.std.specs.Prelude.{◌≤◌, vec_len, vec_capacity};
    ghost use Rattle.e3_outside.specs.Memory.{SinkState};

    ghost Value = { SinkState };

    ghost view = { λ k. record { written = k.bytes.items; room = k.room; most = k.calls.most; fails = k.calls.fails; calls = k.calls.made; faults = k.calls.faults } };

    ghost invariant = { λ k. (vec_len k.bytes ≤ k.room) × (k.room ≤ vec_capacity k.bytes) × (1 ≤ k.calls.most) };
}

impl MemSink {
    /// An empty sink with room for `room` bytes, which it takes at once; it takes no memory afterwards. Each call takes
    /// at most `most` bytes. Calls are numbered from 1, and those whose numbers stand in `fails`, in any order, fail.
    pub fn new(alloc: Global, room: u64, most: u64, fails: List<u64>) -> Result<MemSink, NoMemory>
        requires { 1 ≤ most }
        ensures { IfOk result (λ k. k ≡ record { written = []; room = room; most = most; fails = fails; calls = 0; faults = 0 }) }
    {
        match Vec::with_capacity(alloc, room as usize) {
            Ok(bytes) => Ok(MemSink {
                calls: Calls::new(most, fails),
                bytes,
                room: room as usize,
            }),
            Err(_) => Err(NoMemory),
        }
    }

    /// The bytes that were written so far.
    pub fn written(&self) -> &[u8]
        ensures { result.now ≡ self.now.written }
    {
        self.bytes.as_slice()
    }
}

impl Sink for MemSink {
    ghost use Rattle.std.specs.Prelude.{Some};

    ghost written = { λ k. Some k.written };

    ghost faults = { λ k. k.faults };

    /// Fails exactly in the calls that are listed and where no byte of room is left, and takes as many bytes as it may
    /// otherwise.
    fn write(&mut self, piece: &[u8]) -> Result<usize, Failed>
        requires { 0 < length piece.now }
        ensures some { IfOk result (λ n. (1 ≤ n) × (n ≤ length piece.now)) }
        ensures never_falls { self.old.faults ≤ self.new.faults }
        ensures fails { IsErr result ↔
            (Contains self.old.fails (count_up self.old.calls) ⊎ (length self.old.written ≡ self.old.room)) }
        ensures count { IfOk result (λ n.
            n ≡ min self.old.most (min (length piece.now) (self.old.room - length self.old.written))) }
        ensures after_ok { IfOk result (λ n. self.new ≡ write_of n piece.now self.old) }
        ensures after_err { OnErr result (self.new ≡ failed_write self.old) }
    {
        let free = self.room - self.bytes.len();
        if self.calls.begin() || free == 0 {
            self.calls.fail();
            return Err(Failed);
        }
        let count = self.calls.most.min(piece.len().min(free));
        match self.bytes.extend_from_slice(&piece[..count]) {
            Ok(()) => Ok(count),
            Err(_) => unreachable!(),
        }
    }
}
