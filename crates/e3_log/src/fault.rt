// Why a log was not opened, and why a frame was not added.
ghost use Rattle.std.specs.Prelude.{◌≡◌};
ghost use Rattle.e3_log.specs.declared.fault.OpenCause.TheVariants.{Failed, NoMemory as WantsMemory};

use e3_disk::DiskFault;
use e3_types::NoMemory;
use std::alloc::AllocError;

/// Why a frame was not added, or may not have been.
#[derive(Clone, Copy, Debug, PartialEq, Eq)]
pub enum AppendFault {
    /// The disk failed, in this call or in an earlier one of this log.
    Failed,
    /// The frame ends at the place `need`, and the region at `room`.
    Full { need: u64, room: u64 },
}

/// Why a log was not turned to the other region, or may not have been.
#[derive(Clone, Copy, Debug, PartialEq, Eq)]
pub enum TurnFault {
    /// The disk failed, in this call or in an earlier one of this log.
    Failed,
    /// The frame ends at the place `need`, and the other region at `room`.
    Full { need: u64, room: u64 },
    /// There was no memory. A log that has its memory from the start never answers it.
    NoMemory,
}

/// Why a log could not be opened.
#[derive(Clone, Copy, Debug, PartialEq, Eq)]
pub enum OpenCause {
    /// The disk failed, or it had no power.
    Failed,
    /// The disk is too short, or a region or a frame is not whole there.
    Damaged { at: u64 },
    /// There was no memory for the frames.
    NoMemory,
}

impl From<DiskFault> for OpenCause {
    ghost from_gives = { λ _ e. e ≡ Failed };

    fn from(_: DiskFault) -> OpenCause {
        OpenCause::Failed
    }
}

impl From<AllocError> for OpenCause {
    ghost from_gives = { λ _ e. e ≡ WantsMemory };

    fn from(_: AllocError) -> OpenCause {
        OpenCause::NoMemory
    }
}

impl From<NoMemory> for OpenCause {
    ghost from_gives = { λ _ e. e ≡ WantsMemory };

    fn from(_: NoMemory) -> OpenCause {
        OpenCause::NoMemory
    }
}
