//! The sites of a run, each over a disk of its own, as the driver plays them by workers that are at work side by side. What
//! the workers do stands in `crew`.
#![tactic(auto)]

mod counting;
pub mod crew;
mod driving;
mod fleet;
mod flying;
mod held;
mod in_memory;
mod pace;
mod playing;
mod seating;
mod settling;

pub use fleet::Fleet;
pub use flying::{Played, play_over};
pub use in_memory::memory_disks;
pub use playing::play_first;
