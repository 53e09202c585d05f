// Where bytes go.
ghost use Rattle.std.specs.Prelude.{◌≡◌, ◌<◌, ◌≤◌, List, ℕ, Option, length, take, IfOk, IsOk, OnOk, OnErr};
ghost use Rattle.std.specs.Io.KnownBytes.{Appends};
ghost use Rattle.e3_outside.specs.Faults.{HasFailed};

use crate::Failed;

/// A stream that is written.
pub trait Sink {
    /// The bytes that were written so far, where the stream tells them.
    ghost written: { Self → Option (List ℕ) };

    /// How many of its calls have failed; it stands still at 2^64 - 1.
    ghost faults: { Self → ℕ };

    /// Appends the first bytes of the piece, one of them at least, and answers how many they are. A call may fail at any
    /// time; it then counts a fault and appends nothing.
    fn write(&mut self, piece: &[u8]) -> Result<usize, Failed>
        requires { 0 < length piece.now }
        ensures some { IfOk result (λ n. (1 ≤ n) × (n ≤ length piece.now)) }
        ensures appended { IfOk result (λ n. Appends (written self.old) (written self.new) (take n piece.now)) }
        ensures kept { OnErr result (written self.new ≡ written self.old) }
        ensures counted { OnErr result (HasFailed (faults self.old) (faults self.new)) }
        ensures never_falls { faults self.old ≤ faults self.new };
}

/// Hands the sink the whole rest of the text in each call, until all of it is taken. No call is made for an empty text.
///
/// `Failed` comes where a call of the sink failed, which is the last call then. A front of the text was written before.
pub fn write_all<K: Sink>(sink: &mut K, text: &[u8]) -> Result<(), Failed>
    ensures all { OnOk result (Appends (K.written sink.old) (K.written sink.new) text.now) }
    ensures prefix { OnErr result
        ((n : ℕ) × (n < length text.now) × Appends (K.written sink.old) (K.written sink.new) (take n text.now)) }
    ensures counted { OnErr result (HasFailed (K.faults sink.old) (K.faults sink.new)) }
    ensures never_falls { K.faults sink.old ≤ K.faults sink.new }
    ensures no_call { length text.now ≡ 0 → IsOk result × (sink.new ≡ sink.old) }
{
    let mut done = 0;
    while done < text.len() {
        done += sink.write(&text[done..])?;
    }
    Ok(())
}
