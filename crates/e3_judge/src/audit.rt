//! Whether a history is one that a scenario allows, and where it is not, at which entry and by which rule, in about the time
//! of the run that made it.
mod auditor;
mod dues;
mod ending;
mod falling;
mod judging;
mod lining;
mod parting;
mod rising;
mod seat;
mod several;
mod stepping;
mod walking;

pub use judging::{Audited, audit};
