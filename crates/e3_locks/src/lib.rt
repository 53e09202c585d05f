//! Locks of transactions on named records, granted by the wait-die rule (Bernstein, Hadzilacos and Goodman 1987).
#![tactic(auto)]

mod fronts;
mod gathers;
mod granted;
mod list_locks;
mod locks;
mod names;
mod pairs;
mod place;
mod releases;
mod replays;
mod rule;
mod table;
mod waits;

pub use granted::Granted;
pub use list_locks::ListLocks;
pub use locks::Locks;
pub use names::{add_name, add_names};
pub use place::mode_among;
pub use replays::{LockCall, replay_locks};
pub use rule::{front, lock_grant};
pub use table::LockTable;
pub use waits::add_txn;
