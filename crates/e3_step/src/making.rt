// How a step of a site is put together: what is read at the site, and what a rule adds to the step.
ghost use Rattle.std.specs.Prelude.{◌≡◌, ◌||◌, IfOk, map};
ghost use Rattle.e3_types.specs.declared.messages.Message.TheVariants as msg;
ghost use Rattle.e3_world.specs.Logs.{decision, attempted, has_voted};
ghost use Rattle.e3_world.specs.Making.{nothing, log_now, state_now, open_now, elected_now, attempt_now, is_coordinator, is_present, may_abort, may_decide, may_attempt, and_record, and_tell, and_send, and_cast, and_decide, and_abort, and_abort_for, and_attempt, go_on, and_vote, answer_now, and_do};
ghost use Rattle.e3_step.specs.SoFar.{IsSoFar};

use crate::past::Past;
use e3_quorum::is_quorum_with;
use e3_readings::{
    attempted_behind, decision_behind, has_voted, last_attempt_behind, last_elected_behind,
    state_by,
};
use e3_types::{
    Answer, Copied, Dir, List, Message, Name, NoMemory, NumOp, Op, Packet, Record, SiteSet, State,
    Told, Txn,
};
use e3_world::{Asked, Made, Performed};
use std::alloc::Global;

/// An attempt to end a transaction: under which number, in which direction.
#[derive(Clone, Copy)]
pub struct Attempt {
    pub txn: Txn,
    pub n: u32,
    pub dir: Dir,
}

impl Attempt {
    /// The attempt of this transaction.
    pub fn new(t: &Txn, n: u32, dir: Dir) -> Attempt
        ensures { result ≡ record { txn = t.now; n = n; dir = dir } }
    {
        Attempt { txn: *t, n, dir }
    }
}

/// A step that made nothing yet.
pub fn nothing(alloc: Global) -> Made
    ensures { result ≡ nothing }
{
    Made {
        records: List::new(alloc),
        outs: List::new(alloc),
        told: List::new(alloc),
        own: List::new(alloc),
    }
}

/// The decision of the transaction with the step's records.
pub fn decision_now<P: Past>(p: &P, t: &Txn, made: &Made) -> Option<Dir>
    ensures { result ≡ decision t.now (log_now (P.at p.now) made.now) }
{
    decision_behind(t, p.decision(t), made.records.as_slice())
}

fn attempted_now<P: Past>(p: &P, t: &Txn, made: &Made) -> Option<Dir>
    ensures { result ≡ attempted t.now (log_now (P.at p.now) made.now) }
{
    attempted_behind(t, p.attempted(t), made.records.as_slice())
}

fn or_voted(t: &Txn, before: bool, records: &[Record]) -> bool
    ensures { result ≡ (before || has_voted t.now records.now) }
{
    before || has_voted(t, records)
}

fn voted_now<P: Past>(p: &P, t: &Txn, made: &Made) -> bool
    ensures { result ≡ has_voted t.now (log_now (P.at p.now) made.now) }
{
    or_voted(t, p.voted(t), made.records.as_slice())
}

/// The state of the transaction with the step's records.
#[tactic(auto, using(e3_readings::proofs::States::state_is))]
pub fn state_now<P: Past>(p: &P, t: &Txn, made: &Made) -> State
    ensures { result ≡ state_now (P.at p.now) t.now made.now }
{
    state_by(
        decision_now(p, t, made),
        attempted_now(p, t, made),
        voted_now(p, t, made),
    )
}

/// The transaction is undecided with the step's records.
pub fn open_now<P: Past>(p: &P, t: &Txn, made: &Made) -> bool
    ensures { result ≡ open_now (P.at p.now) t.now made.now }
{
    decision_now(p, t, made).is_none()
}

/// Last_Elected with the step's records.
pub fn elected_now<P: Past>(p: &P, t: &Txn, made: &Made) -> u32
    ensures { result ≡ elected_now (P.at p.now) t.now made.now }
{
    last_elected_behind(t, p.elected(t), made.records.as_slice())
}

/// Last_Attempt with the step's records.
pub fn attempt_now<P: Past>(p: &P, t: &Txn, made: &Made) -> u32
    ensures { result ≡ attempt_now (P.at p.now) t.now made.now }
{
    last_attempt_behind(t, p.attempt(t), made.records.as_slice())
}

/// The site is the transaction's coordinator.
pub fn is_coordinator<P: Past>(p: &P, t: &Txn) -> bool
    ensures { result ≡ is_coordinator (P.at p.now) t.now }
{
    t.site == p.site()
}

/// The transaction is of the present incarnation.
pub fn is_present<P: Past>(p: &P, t: &Txn) -> bool
    ensures { result ≡ is_present (P.at p.now) t.now }
{
    t.inc == p.inc()
}

/// The coordinator may abort: it is undecided and has attempted nothing.
pub fn may_abort<P: Past>(p: &P, t: &Txn, made: &Made) -> bool
    ensures { result ≡ may_abort (P.at p.now) t.now made.now }
{
    is_coordinator(p, t) && open_now(p, t, made) && attempt_now(p, t, made) == 0
}

/// A decision may be recorded: none is, and a commit needs the vote.
pub fn may_decide<P: Past>(p: &P, t: &Txn, dir: Dir, made: &Made) -> bool
    ensures { result ≡ may_decide (P.at p.now) t.now dir made.now }
{
    match dir {
        Dir::Abort => open_now(p, t, made),
        Dir::Commit => open_now(p, t, made) && voted_now(p, t, made),
    }
}

/// An attempt may be recorded: the site is undecided, joined this number last, and has not attempted it.
pub fn may_attempt<P: Past>(p: &P, t: &Txn, n: u32, made: &Made) -> bool
    ensures { result ≡ may_attempt (P.at p.now) t.now n made.now }
{
    open_now(p, t, made) && elected_now(p, t, made) == n && attempt_now(p, t, made) < n
}

/// One more record.
pub fn and_record(r: Record, made: &mut Made) -> Result<(), NoMemory>
    ensures { IfOk result (λ u. made.new ≡ and_record r made.old) }
{
    made.records.push(r)
}

/// One more event is told.
pub fn and_tell(e: Told, made: &mut Made) -> Result<(), NoMemory>
    ensures { IfOk result (λ u. made.new ≡ and_tell e made.old) }
{
    made.told.push(e)
}

/// A message to a site: a packet, or one that waits in this step where it is the site itself.
pub fn and_send<P: Past>(p: &P, to: u32, m: Message, made: &mut Made) -> Result<(), NoMemory>
    ensures { IfOk result (λ u. made.new ≡ and_send (P.at p.now) to m made.old) }
{
    if to == p.site() {
        made.own.push(m)
    } else {
        made.outs.push(Packet {
            number: 0,
            from: p.site(),
            to,
            msg: m,
        })
    }
}

/// A message to all of these sites but the own one, in ascending order.
pub fn and_cast<P: Past>(
    p: &P,
    sites: SiteSet,
    m: &Message,
    made: &mut Made,
) -> Result<(), NoMemory>
    ensures { IfOk result (λ u. made.new ≡ and_cast (P.at p.now) sites m.now made.old) }
{
    for to in sites.without(p.site()).iter() {
        and_send(p, to, m.copy(), made)?;
    }
    Ok(())
}

/// A decision in this direction is sent to all of these sites but the own one.
pub fn cast_decision<P: Past>(
    p: &P,
    sites: SiteSet,
    t: &Txn,
    dir: Dir,
    made: &mut Made,
) -> Result<(), NoMemory>
    ensures { IfOk result (λ u. made.new ≡ and_cast (P.at p.now) sites (msg.Decide t.now dir) made.old) }
{
    and_cast(p, sites, &Message::Decide { txn: *t, dir }, made)
}

/// A decision is recorded; the coordinator of the present incarnation tells it.
pub fn and_decide<P: Past>(p: &P, t: &Txn, dir: Dir, made: &mut Made) -> Result<(), NoMemory>
    ensures { IfOk result (λ u. made.new ≡ and_decide (P.at p.now) t.now dir made.old) }
{
    and_record(Record::Decision { txn: *t, dir }, made)?;
    if is_coordinator(p, t) && is_present(p, t) {
        and_tell(Told::Ended { txn: *t, dir }, made)
    } else {
        Ok(())
    }
}

/// The coordinator aborts and sends the abort to all other sites.
pub fn and_abort<P: Past>(p: &P, t: &Txn, made: &mut Made) -> Result<(), NoMemory>
    ensures { IfOk result (λ u. made.new ≡ and_abort (P.at p.now) t.now made.old) }
{
    and_decide(p, t, Dir::Abort, made)?;
    cast_decision(p, t.sites, t, Dir::Abort, made)
}

/// The coordinator aborts, tells this reason in place of the end, and sends the abort to all other sites.
pub fn and_abort_for<P: Past>(p: &P, t: &Txn, why: Told, made: &mut Made) -> Result<(), NoMemory>
    ensures { IfOk result (λ u. made.new ≡ and_abort_for (P.at p.now) t.now why made.old) }
{
    and_record(
        Record::Decision {
            txn: *t,
            dir: Dir::Abort,
        },
        made,
    )?;
    and_tell(why, made)?;
    cast_decision(p, t.sites, t, Dir::Abort, made)
}

// Behind an attempt: the decision at once where the site is a quorum by itself, else the pre-decision, to these sites.
fn go_on<P: Past>(p: &P, attempt: Attempt, to: SiteSet, made: &mut Made) -> Result<(), NoMemory>
    ensures { IfOk result (λ u. made.new ≡ go_on (P.at p.now) attempt.txn attempt.n attempt.dir to made.old) }
{
    let Attempt { txn, n, dir } = attempt;
    if is_quorum_with(p.weights(), p.site(), &[], txn.sites) {
        and_decide(p, &txn, dir, made)?;
        cast_decision(p, to, &txn, dir, made)
    } else {
        and_cast(p, to, &Message::Pre { txn, n, dir }, made)
    }
}

/// An attempt of the site's own round, and behind it, to these sites, the decision at once where the site is a quorum by
/// itself, else the pre-decision.
pub fn and_attempt<P: Past>(
    p: &P,
    attempt: Attempt,
    to: SiteSet,
    made: &mut Made,
) -> Result<(), NoMemory>
    ensures { IfOk result (λ u. made.new ≡ and_attempt (P.at p.now) attempt.txn attempt.n attempt.dir to made.old) }
{
    let Attempt { txn, n, dir } = attempt;
    if !may_attempt(p, &txn, n, made) {
        return Ok(());
    }
    and_record(Record::Attempt { txn, n, dir }, made)?;
    go_on(p, attempt, to, made)
}

fn voted(alloc: Global, performed: &[Performed]) -> Result<List<NumOp>, NoMemory>
    ensures { IfOk result (λ ops. ops ≡ map (λ p. record { n = p.n; op = p.op }) performed.now) }
{
    let mut ops = List::new(alloc);
    for p in performed {
        ops.push(NumOp {
            n: p.n,
            op: p.op.copy(),
        })?;
    }
    Ok(ops)
}

/// The vote, with the operations that the site has done.
pub fn and_vote<P: Past>(p: &P, t: &Txn, made: &mut Made) -> Result<(), NoMemory>
    ensures { IfOk result (λ u. made.new ≡ and_vote (P.at p.now) t.now made.old) }
{
    let performed = p.done(t)?;
    let ops = voted(p.alloc(), performed.as_slice())?;
    and_record(Record::Vote { txn: *t, ops }, made)
}

/// The message of the site's vote, a yes or a no.
pub fn vote_of(t: &Txn, yes: bool) -> Message
    ensures { result ≡ msg.Vote t.now yes }
{
    Message::Vote { txn: *t, yes }
}

/// The answer to an operation that is done now.
pub fn answer_now<P: Past>(p: &P, t: &Txn, op: &Op, made: &Made) -> Result<Answer, NoMemory>
    requires { IsSoFar (P.at p.now) made.now }
    ensures { IfOk result (λ x. x ≡ answer_now (P.at p.now) t.now op.now made.now) }
{
    match op {
        Op::Write(_, _) => Ok(Answer::Written),
        Op::Read(key) => p.value(t, &key.name, made),
    }
}

/// The answer to a request goes to its coordinator, under the site's incarnation.
pub fn send_done<P: Past>(p: &P, q: &Asked, answer: Answer, made: &mut Made) -> Result<(), NoMemory>
    ensures { IfOk result (λ u. made.new ≡ and_send (P.at p.now) q.now.txn.site (msg.Done q.now.txn q.now.n (P.at p.now).life.inc answer) made.old) }
{
    and_send(
        p,
        q.txn.site,
        Message::Done {
            txn: q.txn,
            n: q.n,
            inc: p.inc(),
            answer,
        },
        made,
    )
}

/// The request is done, and its answer goes to the coordinator.
pub fn and_do<P: Past>(p: &P, q: &Asked, made: &mut Made) -> Result<(), NoMemory>
    requires { IsSoFar (P.at p.now) made.old }
    ensures { IfOk result (λ u. made.new ≡ and_do (P.at p.now) q.now.txn q.now.n q.now.op made.old) }
{
    let answer = answer_now(p, &q.txn, &q.op, made)?;
    send_done(p, q, answer, made)
}
