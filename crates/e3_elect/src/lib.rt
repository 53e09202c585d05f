//! The number and the reports of one election at its elector (Keidar and Dolev 1998).
#![tactic(auto)]

mod counting;
mod election;

pub use election::Election;
