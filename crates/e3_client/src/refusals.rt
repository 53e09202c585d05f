// What is refused of a transaction that is undecided, and whether the earlier answers of a site stand.
ghost use Rattle.std.specs.Prelude.{◌≡◌, ◌==◌, ◌||◌};
ghost use Rattle.e3_client.specs.Clients.{busy_or, late_if};

use e3_types::{Refusal, State};

/// The refusal of an operation or a commit of an undecided transaction, in this state behind this attempt: that an operation
/// is unanswered, else that it is too late.
pub fn refuse_open(state: State, attempt: u32, unanswered: Option<u32>) -> Option<Refusal>
    ensures { result ≡ busy_or state attempt unanswered }
{
    match unanswered {
        Some(op) => Some(Refusal::Busy { op }),
        None => match state {
            State::Q => None,
            _ => Some(Refusal::TooLate { attempt }),
        },
    }
}

/// The refusal of a cancel of an undecided transaction: that it was attempted.
pub fn refuse_attempted(attempt: u32) -> Option<Refusal>
    ensures { result ≡ late_if attempt }
{
    if attempt == 0 {
        return None;
    }
    Some(Refusal::TooLate { attempt })
}

/// A site that answered so often, last under its incarnation had, and answers under this one now, has the locks of its earlier
/// answers.
pub fn kept_locks(count: u32, had: u32, now: u32) -> bool
    ensures { result ≡ (count == 0 || had == now) }
{
    count == 0 || had == now
}
