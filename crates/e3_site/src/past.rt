//! The past of a site as its tables have it: what the rules of a step read, kept in place of the log and the steps, so that
//! a step costs what it does however long these are. `step_with` gives the step of the definitions over them. `behind` is
//! what a step makes of them, `ready` makes room for it, and `apply` puts it in its place. Want of memory is the only error.
mod arriving;
mod following;
mod laws;
mod logged;
mod names;
mod opening;
mod reader;
mod stepping;
mod tables;

pub use laws::steps_may_follow_the_log;
pub use logged::Logged;
pub use names::{Names, NamesBehind};
pub use opening::open_with;
pub use reader::step_with;
pub use stepping::{apply, behind, ready};
pub use tables::{Behind, Opens, Tables};
