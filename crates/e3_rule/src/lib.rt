//! What a group of sites may conclude from its members' reports on a transaction (Keidar and Dolev 1998).
#![tactic(auto)]

mod rule;

pub use rule::{decide, verdict_of};
