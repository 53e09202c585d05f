//! The report of a scenario and its history: the text that a run writes. The lines that it is made of, and those of a trace,
//! stand in `lines`, and are added to a `Page`, a text that grows.
#![tactic(auto)]

mod counts;
mod known;
pub mod lines;
mod logs;
mod names;
mod orders;
mod page;
mod sites;
mod skips;
mod steps;
mod summing;
mod tables;
mod takers;
mod tallies;
mod ups;
mod whole;

pub use page::Page;
pub use summing::summary;
pub use whole::report;
