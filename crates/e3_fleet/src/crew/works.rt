// What the workers of a step work with.
use e3_wire::Wire;
use std::alloc::Global;

/// What all workers of a step work with.
#[derive(Drop)]
pub(crate) struct Works<'a, G> {
    pub(crate) alloc: Global,
    pub(crate) wire: &'a Wire,
    /// What a worker passes before each turn of work with packets.
    pub(crate) gate: &'a G,
    /// In how many threads they are at work at most.
    pub(crate) threads: usize,
    /// How many packets a worker takes for one turn of work at most: from 1 to 8, and 8 for every other number.
    pub(crate) packets: u32,
}
