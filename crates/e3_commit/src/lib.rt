//! What a coordinator gathers on the way to a commit: votes, and acknowledgements of an attempt.
#![tactic(auto)]

mod acks;
mod votes;

pub use acks::{Acks, Round};
pub use votes::Votes;
