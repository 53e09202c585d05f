// A gate at which two sites meet.
use e3_outside::Gate;
use std::sync::atomic::{AtomicU64, Ordering};
use std::thread;

// For how many turns a site waits.
const TURNS: u32 = 1_000_000;

// The bits of both sites.
const BOTH: u64 = 3;

/// A gate that holds the first packet of each of the sites 1 and 2 until the other has come with its own, and gives up after
/// so many turns.
#[derive(Drop)]
pub struct Meeting {
    entered: AtomicU64,
    given_up: AtomicU64,
}

impl Meeting {
    /// Nobody has come.
    pub fn new() -> Meeting {
        Meeting {
            entered: AtomicU64::new(0),
            given_up: AtomicU64::new(0),
        }
    }

    /// Both came, and neither was kept waiting to the end.
    pub fn is_met(&self) -> bool {
        self.entered.load(Ordering::SeqCst) == BOTH && self.given_up.load(Ordering::SeqCst) == 0
    }
}

impl Gate for Meeting {
    fn enter(&self, site: u32) {
        let bit = if site == 1 { 1 } else { 2 };
        self.entered.fetch_or(bit, Ordering::SeqCst);
        for _ in 0..TURNS {
            if self.entered.load(Ordering::SeqCst) == BOTH {
                return;
            }
            thread::yield_now();
        }
        self.given_up.fetch_or(bit, Ordering::SeqCst);
    }
}
