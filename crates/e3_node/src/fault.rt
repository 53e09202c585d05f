// Why a site did not rise, did not take an input, and was not cut.
ghost use Rattle.std.specs.Prelude.{◌≡◌};

use e3_types::{NoMemory, Why};
use e3_wire::WireFault;

/// Why a site did not rise.
#[derive(Clone, Copy)]
pub enum RiseFault {
    /// The site is up.
    Up,
    /// The history has as many entries as it may have.
    HistoryFull,
    /// There was no memory. It may come at any time before the frame is written.
    NoMemory,
    /// The disk failed before its log was read.
    Missed,
    /// The frame of the rise was not written, or may not have been.
    Failed { why: Why },
}

impl From<NoMemory> for RiseFault {
    ghost use Rattle.e3_node.specs.declared.fault.RiseFault.TheVariants as fault;

    ghost from_gives = { λ _ f. f ≡ fault.NoMemory };

    fn from(_cause: NoMemory) -> RiseFault {
        RiseFault::NoMemory
    }
}

impl From<WireFault> for RiseFault {
    ghost use Rattle.e3_node.specs.Ends.{rise_fault_of};

    ghost from_gives = { λ cause f. f ≡ rise_fault_of cause };

    fn from(cause: WireFault) -> RiseFault {
        match cause {
            WireFault::HistoryFull => RiseFault::HistoryFull,
            WireFault::NoMemory => RiseFault::NoMemory,
        }
    }
}

/// Why a site did not take an input.
#[derive(Clone, Copy)]
pub enum InputFault {
    /// The site is down.
    Down,
    /// The history has as many entries, with the places that are promised to other workers, as it may have entries. It comes of
    /// no batch, whose places were promised before.
    HistoryFull,
    /// There was no memory. It comes before the frame is written; of a batch that it cut short, the inputs before it have their
    /// frame. A log without room for the frame is no cause of it.
    NoMemory,
    /// The frame of the step was not written, or may not have been: the site is down now.
    Fell { why: Why },
}

impl From<NoMemory> for InputFault {
    ghost use Rattle.e3_node.specs.declared.fault.InputFault.TheVariants as fault;

    ghost from_gives = { λ _ f. f ≡ fault.NoMemory };

    fn from(_cause: NoMemory) -> InputFault {
        InputFault::NoMemory
    }
}

impl From<WireFault> for InputFault {
    ghost use Rattle.e3_node.specs.Ends.{input_fault_of};

    ghost from_gives = { λ cause f. f ≡ input_fault_of cause };

    fn from(cause: WireFault) -> InputFault {
        match cause {
            WireFault::HistoryFull => InputFault::HistoryFull,
            WireFault::NoMemory => InputFault::NoMemory,
        }
    }
}

/// Why a site was not cut.
#[derive(Clone, Copy)]
pub enum CutFault {
    /// The site is down.
    Down,
    /// The history has as many entries as it may have.
    HistoryFull,
    /// There was no memory.
    NoMemory,
}

impl From<WireFault> for CutFault {
    ghost use Rattle.e3_node.specs.Ends.{cut_fault_of};

    ghost from_gives = { λ cause f. f ≡ cut_fault_of cause };

    fn from(cause: WireFault) -> CutFault {
        match cause {
            WireFault::HistoryFull => CutFault::HistoryFull,
            WireFault::NoMemory => CutFault::NoMemory,
        }
    }
}
