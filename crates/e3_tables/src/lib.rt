//! The records of a site: their values, what a transaction notes to do to them, and the writes that its commit installs.
#![tactic(auto)]

mod tables;
mod workspace;
mod writes;

pub use tables::Tables;
pub use workspace::Workspace;
pub use writes::{row_written, write_of, written};
