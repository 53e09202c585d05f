//! A site of a run over its disk: what its steps record is a frame of its log before the step is entered, and whatever ends
//! a call, the disk stands for the history.
#![tactic(auto)]

mod batching;
mod briefing;
mod drafts;
mod entering;
mod fault;
mod fitting;
mod law;
mod node;
mod reading;
mod readying;
mod rising;
pub mod site_log;
mod state;
mod stepping;
mod taking;
mod turning;

pub use fault::{CutFault, InputFault, RiseFault};
pub use law::{
    a_node_tells_of_its_disk, other_entries_keep_nodes, others_leave_nodes,
    readings_tell_of_the_tail,
};
pub use node::Node;
pub use state::State;
