// The votes that a coordinator gathers, read off its steps of the present incarnation.
ghost use Rattle.std.specs.Prelude.{◌≡◌, List, Option, ℕ, option_map};
ghost use Rattle.e3_types.specs.declared.transactions.Txn.{Txn as T};
ghost use Rattle.e3_types.specs.Sets.{others};
ghost use Rattle.e3_world.specs.Votes.{yes_votes};
ghost use Rattle.e3_readings.specs.Gathering.{are_complete, have_come, missing_yes, votes_by};

use crate::operations::has_refusal;
use e3_commit::Votes;
use e3_types::{Input, Message, Told, Txn};
use e3_world::Moment;

// The votes with a yes of this site.
fn and_yes(was: Option<Votes>, from: u32) -> Option<Votes>
    ensures { result ≡ option_map (others from) was }
{
    match was {
        Some(mut votes) => {
            votes.yes(from);
            Some(votes)
        }
        None => None,
    }
}

/// The votes that are gathered behind one more step, of which its input and the events are read.
pub fn votes_after(
    site: u32,
    t: &Txn,
    was: Option<Votes>,
    input: &Input,
    events: &[Told],
) -> Option<Votes>
    ensures { result ≡ votes_by site t.now was input.now events.now }
{
    match input {
        Input::Commit { txn } if t.is_same(txn) && !has_refusal(events) => {
            Some(Votes::start(t.sites, site))
        }
        Input::Deliver { packet } => match &packet.msg {
            Message::Vote { txn, yes: true } if t.is_same(txn) => and_yes(was, packet.from),
            _ => was,
        },
        _ => was,
    }
}

/// The votes that are gathered since the Commit of the transaction that was not refused: the other sites whose yes is
/// missing; None where there was no such Commit.
pub fn votes_in(site: u32, t: &Txn, steps: &[Moment]) -> Option<Votes>
    ensures { result ≡ missing_yes site t.now (yes_votes t.now steps.now) }
{
    let mut votes = None;
    for m in steps {
        votes = votes_after(site, t, votes, &m.input, m.told.as_slice());
    }
    votes
}

/// Votes are being gathered, and none is missing.
pub fn have_every_yes(votes: Option<Votes>) -> bool
    ensures complete { result ≡ are_complete votes }
    ensures rule { (site : ℕ) (t : T) (came : Option (List ℕ)) → votes ≡ missing_yes site t came → result ≡ have_come (others site t.sites) came }
{
    match votes {
        Some(votes) => votes.are_complete(),
        None => false,
    }
}
