//! Records as bytes: each list of records of a site's log has one spelling. Numbers are unsigned, the high byte first.
#![tactic(auto)]

mod faults;
mod fields;
mod laws;
mod listed;
mod parts;
mod readers;
mod writers;

pub use faults::RecordFault;
pub use laws::{each_list_has_one_spelling, records_are_a_format};
pub use readers::read_records;
pub use writers::put_records;
