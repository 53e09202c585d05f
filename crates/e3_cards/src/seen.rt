// What a log says of a transaction, as one value.
ghost use Rattle.std.specs.Prelude.{◌≡◌, fold};
ghost use Rattle.e3_cards.specs.Seeing.{seen_by, seen_state, unseen};

use e3_readings::{attempted_by, decision_by, is_vote, last_attempt_by, last_elected_by, state_by};
use e3_types::{Dir, Record, State, Txn};

/// What a log says of a transaction: Last_Elected, Last_Attempt, the decision, the direction of the last attempt, and
/// whether it has a vote.
#[derive(Clone, Copy)]
pub struct Seen {
    pub elected: u32,
    pub attempt: u32,
    pub decision: Option<Dir>,
    pub attempted: Option<Dir>,
    pub voted: bool,
}

/// What the empty log says of a transaction.
pub(crate) fn unseen() -> Seen
    ensures { result ≡ unseen }
{
    Seen {
        elected: 1,
        attempt: 0,
        decision: None,
        attempted: None,
        voted: false,
    }
}

/// What a log says of the transaction behind one more record.
pub fn seen_by(t: &Txn, was: Seen, r: &Record) -> Seen
    ensures { result ≡ seen_by t.now was r.now }
{
    Seen {
        elected: last_elected_by(t, was.elected, r),
        attempt: last_attempt_by(t, was.attempt, r),
        decision: decision_by(t, was.decision, r),
        attempted: attempted_by(t, was.attempted, r),
        voted: was.voted || is_vote(t, r),
    }
}

/// What a log says of the transaction behind these records.
pub fn seen_behind(t: &Txn, was: Seen, records: &[Record]) -> Seen
    ensures { result ≡ fold (seen_by t.now) was records.now }
{
    records.iter().fold(was, |s, r| seen_by(t, s, r))
}

/// The state: by the decision, else by the last attempt, else by the vote.
pub fn seen_state(s: &Seen) -> State
    ensures { result ≡ seen_state s.now }
{
    state_by(s.decision, s.attempted, s.voted)
}
