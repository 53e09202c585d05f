// What a site does with an attempt that is asked of it, and with an acknowledgement.
ghost use Rattle.std.specs.Prelude.{◌≡◌, ◌∷◌, IfOk, Some};
ghost use Rattle.e3_types.specs.Quorums.{is_quorum};
ghost use Rattle.e3_world.specs.AttemptRules.{on_pre, on_ack};
ghost use Rattle.e3_world.specs.Rounds.{round_in_progress};

use crate::making::{
    Attempt, and_decide, and_record, and_send, attempt_now, cast_decision, elected_now, may_decide,
    open_now,
};
use crate::past::Past;
use e3_commit::Acks;
use e3_quorum::is_quorum_with;
use e3_types::{Message, NoMemory, Record, Txn};
use e3_world::Made;

/// An undecided site that joined this number last attempts it, once, and acknowledges to site f.
pub fn on_pre<P: Past>(p: &P, f: u32, asked: Attempt, made: &mut Made) -> Result<(), NoMemory>
    ensures { IfOk result (λ u. made.new ≡ on_pre (P.at p.now) f asked.txn asked.n asked.dir made.old) }
{
    let Attempt { txn, n, dir } = asked;
    if !(open_now(p, &txn, made) && elected_now(p, &txn, made) == n) {
        return Ok(());
    }
    if attempt_now(p, &txn, made) != n {
        and_record(Record::Attempt { txn, n, dir }, made)?;
    }
    and_send(p, f, Message::Ack { txn, n, dir }, made)
}

// The site has attempted what these acknowledge, with those that acknowledged it: together they are a quorum.
fn has_quorum<P: Past>(p: &P, t: &Txn, r: &Acks) -> bool
    ensures { result ≡ is_quorum (P.at p.now).weights ((P.at p.now).site ∷ r.now.acked) t.now.sites }
{
    is_quorum_with(p.weights(), p.site(), r.arrivals(), t.sites)
}

// An acknowledgement of site f in this round, the one in progress, which is borrowed.
fn hear_ack<P: Past>(
    p: &P,
    f: u32,
    told: Attempt,
    r: &mut Acks,
    made: &mut Made,
) -> Result<(), NoMemory>
    requires { Some r.old ≡ round_in_progress (P.at p.now).site told.txn (P.at p.now).life.steps }
    ensures { IfOk result (λ u. made.new ≡ on_ack (P.at p.now) f told.txn told.n told.dir made.old) }
{
    let Attempt { txn, n, dir } = told;
    r.add(f, n, dir);
    if r.number() == n
        && r.direction() == dir
        && may_decide(p, &txn, dir, made)
        && has_quorum(p, &txn, r)
    {
        and_decide(p, &txn, dir, made)?;
        cast_decision(p, r.receivers(), &txn, dir, made)
    } else {
        Ok(())
    }
}

/// An acknowledgement of site f in the round in progress: with a quorum the site decides.
pub fn on_ack<P: Past>(p: &P, f: u32, told: Attempt, made: &mut Made) -> Result<(), NoMemory>
    ensures { IfOk result (λ u. made.new ≡ on_ack (P.at p.now) f told.txn told.n told.dir made.old) }
{
    match p.round(&told.txn) {
        Some(mut r) => hear_ack(p, f, told, &mut r, made),
        None => Ok(()),
    }
}
