//! The values of which transactions, logs, messages, histories and scenarios are made, and the definitions that all
//! crates share: sets of sites, order of transactions, weights and quorums, the lock rule, the verdict over reports,
//! and the spelling of records.
#![tactic(auto)]

mod copies;
mod entries;
mod list;
mod locks;
mod messages;
mod records;
mod scenarios;
mod sites;
mod sorted;
mod text;
mod transactions;
mod verdicts;

pub use copies::Copied;
pub use entries::{Act, Entry, Input, Refusal, Told, Why};
pub use list::{List, NoMemory};
pub use locks::{Grant, Lock, Mode};
pub use messages::{Message, Packet, rank};
pub use records::Record;
pub use scenarios::{Item, KeyRow, Leave, Scenario};
pub use sites::{SiteIter, SiteSet};
pub use sorted::{Named, place_of};
pub use text::{Name, Val};
pub use transactions::{Answer, Call, Dir, Key, NumOp, Op, Row, State, Txn, ages_are_ordered};
pub use verdicts::{SiteReport, Verdict};
