// What an elector is told, and what it concludes.
use crate::State;

/// What a site of an election's group reports: its state and the number of its last attempt, 0 for none.
#[derive(Clone, Copy)]
pub struct SiteReport {
    pub site: u32,
    pub state: State,
    pub attempt: u32,
}

/// What an elector concludes from its group's reports. A group that is no quorum is blocked: it has so much weight of
/// so much in all.
#[derive(Clone, Copy)]
pub enum Verdict {
    Abort,
    Commit,
    PreCommit,
    PreAbort,
    Block { have: u64, total: u64 },
}
