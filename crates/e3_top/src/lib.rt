//! A run, from the words of the command line and the bytes of a scenario to the bytes of a report; and the verdict on a printed
//! history.
#![tactic(auto)]

mod checking;
mod commands;
mod preparing;
mod running;
mod stage;
mod words;

pub use commands::{Command, read_words};
pub use running::{Ended, run, run_within};
