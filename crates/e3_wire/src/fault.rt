// Why nothing is promised or entered.
ghost use Rattle.std.specs.Prelude.{◌≡◌};

use e3_types::NoMemory;

/// Why the wire promises or enters nothing.
#[derive(Clone, Copy, Debug, PartialEq, Eq)]
pub enum WireFault {
    /// The history has as many entries and promised places as it may have entries.
    HistoryFull,
    /// There was no memory. It may come at any time.
    NoMemory,
}

impl From<NoMemory> for WireFault {
    ghost use Rattle.e3_wire.specs.declared.fault.WireFault.TheVariants as fault;

    ghost from_gives = { λ _ f. f ≡ fault.NoMemory };

    fn from(_cause: NoMemory) -> WireFault {
        WireFault::NoMemory
    }
}
