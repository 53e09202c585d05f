//! All that the rules of a step read of a transaction, in one record for each transaction, so that a step at a site costs
//! what it does, however long the site's log and history are. The definitions of a step read a site's log and steps; a
//! card has what they read of one transaction, and a step is told by the cards alone. Want of memory is the only error.
#![tactic(auto)]

mod arriving;
mod card;
mod cards;
mod changing;
mod copying;
mod electing;
mod issued;
mod kept;
mod keys;
mod noting;
mod operations;
mod readings;
mod seen;
mod stepping;
mod touched;

pub use card::{Card, Change, Counted, Heard};
pub use cards::{Cards, Changes};
pub use changing::{apply, changes, ready};
pub use copying::copy_at;
pub use keys::{TxnKey, txn_key};
pub use noting::note;
pub use seen::{Seen, seen_behind, seen_by, seen_state};
pub use stepping::step_card;
