//! Weights of sites, and quorums: groups with more than half of the weight, any two of which share a site (Skeen 1982).
#![tactic(auto)]

mod quorums;
mod weights;

pub use quorums::{is_quorum, is_quorum_with, weight_at, weight_of};
pub use weights::{WeightFault, Weights};
