//! The network of a run on one thread: the fate of each packet, the packets that are pending, the parts and the calm. It
//! is kept so that it stands for the history, whatever a run enters in that.
#![tactic(auto)]

mod laws;
mod net;
mod queue;
mod slots;
mod waiting;

pub use laws::{each_entry_keeps_the_net, net_shows_what_is_pending};
pub use net::Net;
pub use waiting::Waiting;
