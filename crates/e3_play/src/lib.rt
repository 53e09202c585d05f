//! The driver of a run: it raises the sites, enters the lines of the scenario, has each step settle with what it asks of
//! sites, cuts, raises, stops and recovers sites, and so makes a history that is legal entry by entry. What it needs to
//! know of the sites and of a recovery's round is worked out here.
#![tactic(auto)]

mod alone;
mod delivering;
mod kinds;
mod listing;
mod names;
mod playing;
mod recovering;
mod reporting;
mod rising;
mod sites;

pub use delivering::deliver_all;
pub use names::Names;
pub use playing::{begin_recovery, begin_step};
pub use recovering::recover;
pub use reporting::{RoundReport, round_report};
pub use rising::rise_all;
pub use sites::{RunFault, Sites};
