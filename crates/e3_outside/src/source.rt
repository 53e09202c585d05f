// Where bytes come from.
ghost use Rattle.std.specs.Prelude.{◌≡◌, ◌<◌, ◌≤◌, List, [], ℕ, Option, length, take, IfOk, OnErr};
ghost use Rattle.std.specs.Io.{ReadsAtMost};
ghost use Rattle.std.specs.Io.KnownBytes.{Consumes, IsAtEnd};
ghost use Rattle.e3_outside.specs.Faults.{HasFailed};

use crate::Failed;
use e3_types::{List, NoMemory};
use std::alloc::Global;

/// A stream that is read.
pub trait Source {
    /// The bytes that are left to be read, where the stream tells them.
    ghost left: { Self → Option (List ℕ) };

    /// How many of its calls have failed; it stands still at 2^64 - 1.
    ghost faults: { Self → ℕ };

    /// Takes the first bytes that are left, puts them at the front of `into`, and answers how many they are. No byte
    /// is taken only at the end of the input. A call may fail at any time; it then counts a fault and takes nothing.
    fn read(&mut self, into: &mut [u8]) -> Result<usize, Failed>
        requires { 0 < length into.old }
        ensures bound { ReadsAtMost result into.new }
        ensures taken { IfOk result (λ n. Consumes (left self.old) (left self.new) (take n into.new)) }
        ensures end { IfOk result (λ n. n ≡ 0 → IsAtEnd (left self.new)) }
        ensures kept { OnErr result (left self.new ≡ left self.old) }
        ensures counted { OnErr result (HasFailed (faults self.old) (faults self.new)) }
        ensures never_falls { faults self.old ≤ faults self.new };
}

/// Why a source was not read to its end.
#[derive(Clone, Copy, Debug, PartialEq, Eq)]
pub enum ReadFault {
    /// A call of the source failed.
    Failed,
    /// There was no memory for the bytes.
    NoMemory,
}

/// Reads until the source ends or `most` bytes are there, and answers these bytes in order. Each call of the source but
/// the last takes a byte, and there is no further call after one that takes none or fails.
///
/// `Failed` comes where a call of the source failed, and `NoMemory` where the bytes of the last call found no memory.
/// The bytes that were read before are taken from the source then, and are lost.
pub fn read_up_to<S: Source>(
    alloc: Global,
    source: &mut S,
    most: u64,
) -> Result<List<u8>, ReadFault>
    ensures bytes { IfOk result (λ bytes. Consumes (S.left source.old) (S.left source.new) bytes) }
    ensures bound { IfOk result (λ bytes. length bytes ≤ most) }
    ensures end { IfOk result (λ bytes. length bytes < most → IsAtEnd (S.left source.new)) }
    ensures failed { result ≡ Err ReadFault.Failed →
        ((bytes : List ℕ) × (length bytes < most) × Consumes (S.left source.old) (S.left source.new) bytes) }
    ensures no_memory { result ≡ Err ReadFault.NoMemory →
        ((bytes : List ℕ) × (length bytes ≤ most) × Consumes (S.left source.old) (S.left source.new) bytes) }
    ensures counted { result ≡ Err ReadFault.Failed → HasFailed (S.faults source.old) (S.faults source.new) }
    ensures never_falls { S.faults source.old ≤ S.faults source.new }
    ensures no_call { most ≡ 0 → (result ≡ Ok []) × (source.new ≡ source.old) }
{
    let mut bytes = List::new(alloc);
    let mut buffer = [0; 4096];
    while bytes.len() < most {
        let room = (most - bytes.len()).min(4096) as usize;
        match source.read(&mut buffer[..room]) {
            Ok(0) => return Ok(bytes),
            Ok(count) => match bytes.extend(&buffer[..count]) {
                Ok(()) => {}
                Err(NoMemory) => return Err(ReadFault::NoMemory),
            },
            Err(Failed) => return Err(ReadFault::Failed),
        }
    }
    Ok(bytes)
}
