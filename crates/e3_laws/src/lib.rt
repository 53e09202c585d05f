//! What holds of every step and of every legal history. Nothing here runs: each law is a function whose contract says it. The
//! others rest on `steps`; `serial` and `rounds` rest on `agreement` too, `rounds` also on `serial`.
#![tactic(auto)]

pub mod agreement;
pub mod brief;
pub mod local;
pub mod rounds;
pub mod serial;
pub mod steps;
