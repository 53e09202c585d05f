//! Whether a history is one that a scenario allows, and where it is not, at which entry and by which rule. Beside it
//! what is read off a history: its logs and packets, the order in which its transactions commit, and whether its sites
//! agree. All of it is read anew for each entry; `audit` says the same in about the time of a run.
#![tactic(auto)]

pub mod audit;
mod breach;
mod checks;
mod clashing;
mod counts;
mod equal;
mod inputs;
mod items;
mod judging;
mod laws;
mod logs;
mod orders;
mod packets;
mod places;
mod prefix;
mod rounds;
mod sites;
mod steps;

pub use breach::{Breach, Guard};
pub(crate) use checks::are_numbered;
pub use clashing::clash;
pub(crate) use equal::{Same, same_list};
pub(crate) use inputs::{is_at, is_round};
pub(crate) use items::{has_delivery, is_up_at};
pub use items::{since_line, to_line, turn_of};
pub(crate) use judging::judge_behind;
pub use judging::{Judged, is_whole, judge};
pub use laws::checks_are_exact;
pub use orders::order;
pub(crate) use packets::{lines, sent_count};
pub use packets::{is_calm, present_items};
pub use prefix::Prefix;
pub use sites::Tail;
pub(crate) use steps::{begins_with_parts, is_site, may_rise};
