//! A transaction as its coordinator keeps it for the client: its operations, their answers, and what is refused.
#![tactic(auto)]

mod client;
mod refusals;

pub use client::{Client, Heard, Issued, quiet_steps_pass};
pub use refusals::{kept_locks, refuse_attempted, refuse_open};
