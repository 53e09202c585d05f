//! The rules by which a site makes a step, over what they read of its past: `step_at` gives the step of the definitions
//! at any `Past`, whether its readings are computed anew each time or kept in tables. In `plain` they are computed anew.
#![tactic(auto)]

mod attempt_rules;
mod election_rules;
mod grants;
mod making;
mod messages;
mod operation_rules;
mod past;
pub mod plain;
mod sending;
mod steps;
mod vote_rules;

pub use grants::decides;
pub use past::Past;
pub use steps::step_at;
