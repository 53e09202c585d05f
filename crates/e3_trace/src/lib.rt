//! The history that the lines of a trace spell.
//!
//! What is read is a text, then the line `#trace`, and then the lines of a history's entries with a closing `end`. The
//! sites of a transaction, and what a packet is that is delivered, come from earlier lines.
#![tactic(auto)]

mod cuts;
mod drafts;
mod entries;
mod events;
mod faults;
mod fields;
mod inputs;
mod known;
mod laws;
mod messages;
mod past;
mod reading;
mod records;
mod spare;
mod trace;
pub mod verdicts;

pub use faults::TraceFault;
pub use laws::traces_read_back;
pub use trace::{before_mark, read_trace};
