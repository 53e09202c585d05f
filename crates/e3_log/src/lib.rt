//! A log of frames on a disk, each of which is there whole or not at all, in two regions: a full log is turned into a short one
//! in the other region.
#![tactic(auto)]

mod commit;
mod fault;
mod handing;
mod law;
mod log;
mod open;
mod prepare;
mod region;

pub use fault::{AppendFault, OpenCause, TurnFault};
pub use law::{calls_are_whole_or_not_at_all, regions_have_one_reading};
pub use log::{Log, OpenRefused};
pub use open::Frame;
pub use region::Region;
