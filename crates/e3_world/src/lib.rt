//! What happened in a run and what it means: histories, the log and the table of a site, a site's step, which histories
//! a scenario allows, and what is promised of them.
#![tactic(auto)]

mod elections;
mod fate;
mod history;
mod items;
mod lives;
mod names;
mod sites;
mod transactions;

pub use elections::Named;
pub use fate::{copies_by_luck, fate_word, same_part};
pub use history::History;
pub use items::is_groupable;
pub use lives::{Asked, At, Expected, Incarnation, Life, Made, Moment, Performed, SiteStep};
pub use names::{Addressed, Binding, Bound};
pub use sites::{all_sites, sites_to};
pub use transactions::found_by_bits;
