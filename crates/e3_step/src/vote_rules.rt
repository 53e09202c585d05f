// What a site does when it is asked for its vote, and a coordinator with a yes.
ghost use Rattle.std.specs.Prelude.{◌≡◌, ◌==◌, ◌&&◌, ◌||◌, if◌then◌else◌, not, true, false, IfOk};
ghost use Rattle.e3_types.specs.declared.messages.Message.TheVariants as msg;
ghost use Rattle.e3_types.specs.declared.transactions.Dir.TheVariants.{Abort};
ghost use Rattle.e3_world.specs.Making.{and_decide, and_send, and_vote};
ghost use Rattle.e3_world.specs.VoteRules.{vote_rule, on_vote_req, on_yes};

use crate::making::{
    Attempt, and_attempt, and_decide, and_send, and_vote, elected_now, is_coordinator, state_now,
    vote_of,
};
use crate::past::Past;
use e3_types::{Dir, NoMemory, State, Txn};
use e3_world::{Expected, Made};

fn may_say_yes(count: u32, have: u64, inc: u32, present: u32, waits: bool) -> bool
    ensures { result ≡ (count == have && (count == 0 || inc == present) && not waits) }
{
    count as u64 == have && (count == 0 || inc == present) && !waits
}

/// The site may say yes: it has done as many operations as it is asked for, in this incarnation where there are any, and
/// none waits.
pub fn vote_rule<P: Past>(p: &P, t: &Txn, asked: Expected, made: &Made) -> Result<bool, NoMemory>
    ensures { IfOk result (λ b. b ≡ vote_rule (P.at p.now) t.now asked.inc asked.count made.now) }
{
    let performed = p.done(t)?;
    let waits = p.waits(t, made)?;
    Ok(may_say_yes(asked.count, performed.len(), asked.inc, p.inc(), waits))
}

// A site in q votes and says yes, where it may; else it aborts and says no.
fn vote_or_abort<P: Past>(
    p: &P,
    f: u32,
    t: &Txn,
    asked: Expected,
    made: &mut Made,
) -> Result<(), NoMemory>
    ensures { IfOk result (λ u. made.new ≡ (if vote_rule (P.at p.now) t.now asked.inc asked.count made.old
        then and_send (P.at p.now) f (msg.Vote t.now true) (and_vote (P.at p.now) t.now made.old)
        else and_send (P.at p.now) f (msg.Vote t.now false) (and_decide (P.at p.now) t.now Abort made.old))) }
{
    if vote_rule(p, t, asked, made)? {
        and_vote(p, t, made)?;
        and_send(p, f, vote_of(t, true), made)
    } else {
        and_decide(p, t, Dir::Abort, made)?;
        and_send(p, f, vote_of(t, false), made)
    }
}

/// A site that is asked for its vote, by site f, which says what it expects of it.
pub fn on_vote_req<P: Past>(
    p: &P,
    f: u32,
    t: &Txn,
    asked: Expected,
    made: &mut Made,
) -> Result<(), NoMemory>
    ensures { IfOk result (λ u. made.new ≡ on_vote_req (P.at p.now) f t.now asked.inc asked.count made.old) }
{
    let first = elected_now(p, t, made) == 1;
    match (state_now(p, t, made), first) {
        (State::A, _) => and_send(p, f, vote_of(t, false), made),
        (State::W, true) => and_send(p, f, vote_of(t, true), made),
        (State::Q, true) => vote_or_abort(p, f, t, asked, made),
        _ => Ok(()),
    }
}

/// A yes: with the last one the coordinator attempts to commit.
pub fn on_yes<P: Past>(p: &P, t: &Txn, made: &mut Made) -> Result<(), NoMemory>
    ensures { IfOk result (λ u. made.new ≡ on_yes (P.at p.now) t.now made.old) }
{
    if !(is_coordinator(p, t)
        && state_now(p, t, made) == State::W
        && elected_now(p, t, made) == 1)
    {
        return Ok(());
    }
    if p.has_every_yes(t, made)? {
        and_attempt(p, Attempt::new(t, 1, Dir::Commit), t.sites, made)
    } else {
        Ok(())
    }
}
