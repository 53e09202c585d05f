// Streams over readers and writers of std.
ghost use Rattle.std.specs.Prelude.{◌≡◌, ◌<◌, ◌≤◌, length, IfOk};
ghost use Rattle.std.specs.Io.{ReadsAtMost};
ghost use Rattle.std.specs.Io.KnownBytes.{ReadConsumes, WriteAppends};
ghost use Rattle.e3_outside.specs.Faults.{Counts};

use crate::Failed;
use crate::sink::Sink;
use crate::source::Source;
use std::io::{ErrorKind, Read, Write};
use std::marker::Model;

/// How often a call of std that was interrupted is made again.
const MOST_REPEATS: u32 = 1000;

/// A stream over a reader or a writer of std. It tells no content: what the reader gives and what the writer takes is
/// trusted.
#[derive(Drop)]
pub struct Standard<S: Drop> {
    inner: S,
    faults: u64,
}

/// A source over a reader of std.
pub type StdSource<R> = Standard<R>;

/// A sink over a writer of std.
pub type StdSink<W> = Standard<W>;

impl<S: Drop> Model for Standard<S> {
    ghost use Rattle.e3_outside.specs.Standard.{Counted};

    ghost Value = { Counted S };

    ghost view = { λ s. record { inner = s.inner; faults = s.faults } };
}

impl<S: Drop> Standard<S> {
    /// A stream over this reader or writer that has counted no fault.
    pub fn new(inner: S) -> Standard<S>
        ensures { result ≡ record { inner = inner; faults = 0 } }
    {
        Standard { inner, faults: 0 }
    }

    // Counts a fault where a call failed, and answers as the call did.
    fn count(&mut self, outcome: Result<usize, Failed>) -> Result<usize, Failed>
        ensures same { result ≡ outcome }
        ensures inner { self.new.inner ≡ self.old.inner }
        ensures counts { Counts outcome self.old.faults self.new.faults }
    {
        if outcome.is_err() {
            self.faults = self.faults.saturating_add(1);
        }
        outcome
    }
}

impl<R: Read + Drop> Source for Standard<R> {
    ghost use Rattle.std.specs.Prelude.{None};

    ghost left = { λ _. None };

    ghost faults = { λ s. s.faults };

    /// One call of the reader, made again where it was interrupted, at most 1,000 times. Every other error, and an
    /// interruption past that, is counted and answered by `Failed`.
    fn read(&mut self, into: &mut [u8]) -> Result<usize, Failed>
        requires { 0 < length into.old }
        ensures bound { ReadsAtMost result into.new }
        ensures inner { ReadConsumes (R.remaining self.old.inner) (R.remaining self.new.inner) result into.new }
        ensures counts { Counts result self.old.faults self.new.faults }
    {
        let outcome = read_once(&mut self.inner, into);
        self.count(outcome)
    }
}

impl<W: Write + Drop> Sink for Standard<W> {
    ghost use Rattle.std.specs.Prelude.{None};

    ghost written = { λ _. None };

    ghost faults = { λ s. s.faults };

    /// One call of the writer, made again where it was interrupted, at most 1,000 times. Every other error, a call that
    /// takes no byte, and an interruption past that are counted and answered by `Failed`.
    fn write(&mut self, piece: &[u8]) -> Result<usize, Failed>
        requires { 0 < length piece.now }
        ensures some { IfOk result (λ n. (1 ≤ n) × (n ≤ length piece.now)) }
        ensures inner { WriteAppends (W.contents self.old.inner) (W.contents self.new.inner) result piece.now }
        ensures counts { Counts result self.old.faults self.new.faults }
    {
        let outcome = write_once(&mut self.inner, piece);
        self.count(outcome)
    }
}

// One read, made again where it was interrupted.
fn read_once<R: Read>(inner: &mut R, into: &mut [u8]) -> Result<usize, Failed>
    requires { 0 < length into.old }
    ensures bound { ReadsAtMost result into.new }
    ensures bytes { ReadConsumes (R.remaining inner.old) (R.remaining inner.new) result into.new }
{
    for _ in 0..=MOST_REPEATS {
        match inner.read(into) {
            Ok(count) => return Ok(count),
            Err(e) if e.kind() == ErrorKind::Interrupted => {}
            Err(_) => return Err(Failed),
        }
    }
    Err(Failed)
}

// One write, made again where it was interrupted.
fn write_once<W: Write>(inner: &mut W, piece: &[u8]) -> Result<usize, Failed>
    requires { 0 < length piece.now }
    ensures some { IfOk result (λ n. (1 ≤ n) × (n ≤ length piece.now)) }
    ensures bytes { WriteAppends (W.contents inner.old) (W.contents inner.new) result piece.now }
{
    for _ in 0..=MOST_REPEATS {
        match inner.write(piece) {
            Ok(0) => return Err(Failed),
            Ok(count) => return Ok(count),
            Err(e) if e.kind() == ErrorKind::Interrupted => {}
            Err(_) => return Err(Failed),
        }
    }
    Err(Failed)
}
