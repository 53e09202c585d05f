// Locks of transactions on records (Bernstein, Hadzilacos and Goodman 1987).
ghost use Rattle.std.specs.Prelude.{◌≡◌};
ghost use Rattle.std.specs.List.{list_any};
ghost use Rattle.e3_types.specs.Locks.{conflicts, covers, is_covered, opposes};

use crate::Txn;

/// The mode of a lock: a read's is shared, a write's is exclusive.
#[derive(Clone, Copy, PartialEq, Eq)]
pub enum Mode {
    Shared,
    Exclusive,
}

impl Mode {
    /// Two locks of these modes on one record are not compatible.
    pub fn conflicts(self, other: Mode) -> bool
        ensures { result ≡ conflicts self other }
    {
        match (self, other) {
            (Mode::Shared, Mode::Shared) => false,
            _ => true,
        }
    }

    /// A lock of this mode gives all that the other asks for.
    pub fn covers(self, other: Mode) -> bool
        ensures { result ≡ covers self other }
    {
        match (self, other) {
            (Mode::Exclusive, _) | (Mode::Shared, Mode::Shared) => true,
            (Mode::Shared, Mode::Exclusive) => false,
        }
    }
}

/// A lock that a transaction holds, or for which it waits.
#[derive(Clone, Copy)]
pub struct Lock {
    pub txn: Txn,
    pub mode: Mode,
}

/// The answer to a request for a lock. One that dies names the oldest transaction in its way.
#[derive(Clone, Copy)]
pub enum Grant {
    Held,
    Waits,
    Dies { older: Txn },
}

impl Lock {
    /// The transaction's lock among these covers the mode that it wants.
    pub fn is_covered(&self, locks: &[Lock]) -> bool
        ensures { result ≡ is_covered self.now locks.now }
    {
        locks.iter().any(|lock| lock.txn.is_same(&self.txn) && lock.mode.covers(self.mode))
    }

    /// The other lock is another transaction's, and conflicts with this one.
    pub fn opposes(&self, other: &Lock) -> bool
        ensures { result ≡ opposes self.now other.now }
    {
        !other.txn.is_same(&self.txn) && other.mode.conflicts(self.mode)
    }

    /// One of these is another transaction's, and conflicts with this one.
    pub fn is_opposed(&self, locks: &[Lock]) -> bool
        ensures { result ≡ list_any (opposes self.now) locks.now }
    {
        locks.iter().any(|lock| self.opposes(lock))
    }
}
