//! The log of a site by its records: each frame has the records of a move, and a log that is full is turned to its brief.
mod writing;

pub use writing::{Short, write};
