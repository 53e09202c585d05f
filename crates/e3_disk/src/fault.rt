// Why a call of a disk did not do its work.
/// Why a call of a disk did nothing or was interrupted.
#[derive(Clone, Copy, Debug, PartialEq, Eq)]
pub enum DiskFault {
    /// The disk failed, or it has no power.
    Failed,
    /// The range ends at `need`, which passes the capacity, `room`.
    Full { need: u64, room: u64 },
}
