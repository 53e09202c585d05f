//! Workers of the sites of a run, each in a thread of its own: a step settles in rounds, in which the sites take what it
//! asks of them, and then the packets that come of it; between rounds the driver drops those to sites that are down.
mod dropping;
mod fault;
mod forks;
mod rounds;
mod settling;
mod worker;
mod working;
mod works;

pub use settling::settle;
pub use worker::Worker;
