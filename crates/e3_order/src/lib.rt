//! The committed transactions in the order of their last votes, which is the order in which they count as run; with sets of
//! transactions, and transactions as the keys of maps.
#![tactic(auto)]

mod decisions;
mod keys;
mod orders;

pub use decisions::decided;
pub use keys::{TxnKey, TxnSet};
pub use orders::commit_order;
