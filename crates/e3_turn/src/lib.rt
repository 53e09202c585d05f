//! A lock that is taken in turn, by tickets, round a value with a chronicle. The chronicle is a list of marks that only
//! grows, and each mark belongs to some owners. Who has a pass speaks for the owners of the pass: it knows all marks of
//! theirs, and no one else adds one.
#![tactic(auto)]

mod chronicle;
mod lock;
mod plays;
mod view;

pub use chronicle::Chronicle;
pub use lock::{Pass, TurnLock};
pub use view::{Key, TurnRule, View};
