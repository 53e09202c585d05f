//! The wire: the history, the network and the promises that the workers of a run share, in turns. Each worker has a pass
//! that speaks for its site. It enters what its site may enter behind what the pass has seen; by a law that is then legal
//! behind all that others entered since.
#![tactic(auto)]

mod fault;
mod growing;
mod laws;
mod marks;
mod passing;
mod promises;
mod shared;
mod wire;

pub use fault::WireFault;
pub use laws::{
    claimed_drafts_may_enter, claimed_entries_may_enter, claims_are_used, drivers_may_put_marks,
    marks_add_up, marks_of_others_leave_a_site, places_are_noted,
};
pub use marks::{Mark, Note, Stored};
pub use shared::Shared;
pub use wire::{Wire, WirePass};
