// Why lines spell no history.
ghost use Rattle.std.specs.Prelude.{◌≡◌};
ghost use Rattle.e3_trace.specs.declared.faults.Fault.TheVariants.{NoMemory as Wanting};

use e3_types::NoMemory;

/// Why a part of a line could not be read.
#[derive(Clone, Copy, Debug, PartialEq, Eq)]
pub(crate) enum Fault {
    /// The text is outside the part's form.
    Bad,
    /// Memory ran out.
    NoMemory,
}

impl From<NoMemory> for Fault {
    ghost from_gives = { λ _ e. e ≡ Wanting };

    fn from(_e: NoMemory) -> Fault {
        Fault::NoMemory
    }
}

/// Why a text spells no history.
#[derive(Clone, Copy, Debug, PartialEq, Eq)]
pub enum TraceFault {
    /// The text is longer than a trace may be, or it has more entries than a history may have.
    TooLong,
    /// The line of this number, counted from 1 behind the mark, is the first at fault: it is outside the grammar, it
    /// names a transaction that no earlier line told as begun, or it delivers a packet that no earlier line sent. 0 where
    /// there is no mark.
    Line { at: u64 },
    /// Memory ran out.
    NoMemory,
}
