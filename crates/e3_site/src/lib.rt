//! A site while it is up: it plans a step without doing it, makes room for it, and does it without memory. What it plans
//! is the step of the definitions. A site rises by being rebuilt from the records of its log, which are first read for one
//! that no site can have written. Its tables of what it did stand in `past`.
#![tactic(auto)]

mod before;
mod briefs;
mod disorder;
mod headings;
mod laws;
mod locks;
mod notes;
mod order;
pub mod past;
mod plan;
mod rebuilding;
mod site;
mod site_brief;
mod table_brief;

pub use briefs::brief;
pub use disorder::first_disorder;
pub use laws::{alike_sites_do_the_same, alike_sites_stay_alike};
pub use plan::Plan;
pub use rebuilding::{RebuildFault, rebuild};
pub use site::Site;
pub use site_brief::brief_of_site;
