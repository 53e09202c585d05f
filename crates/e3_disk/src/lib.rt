//! Disks by what a read gives and what a crash may leave, and one in memory that can be made to fail and to stop.
#![tactic(auto)]

mod cells;
mod disk;
mod fault;
mod law;
mod memory;
mod panel;
mod schedule;
mod store;

pub use disk::{Disk, Drill};
pub use fault::DiskFault;
pub use law::{Piece, torn_writes_keep_the_rest, write_pieces};
pub use memory::MemDisk;
