// Why records could not be read.

/// Why a field could not be read.
#[derive(Clone, Copy, Debug, PartialEq, Eq)]
pub enum Fault {
    /// No such field begins here.
    Bad,
    /// Memory ran out.
    NoMemory,
}

/// Why a list of records could not be read.
#[derive(Clone, Copy, Debug, PartialEq, Eq)]
pub enum RecordFault {
    /// No record begins there: the first such place, counted from 0.
    Bad { at: u64 },
    /// Memory ran out.
    NoMemory,
}
