// How the workers of a fleet work.

/// How the workers of a fleet work.
#[derive(Drop)]
pub(crate) struct Pace<'a, G> {
    /// What a worker passes before each turn of work with packets.
    pub(crate) gate: &'a G,
    /// In how many threads they are at work at most.
    pub(crate) threads: usize,
    /// How many packets a worker takes for one turn of work at most: from 1 to 8, and 8 for every other number.
    pub(crate) packets: u32,
}
