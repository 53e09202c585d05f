// What a step of a site does: the records, packets and events of an input, read off the site's own past alone.
ghost use Rattle.std.specs.Prelude.{◌≡◌, ◌≤◌, ◌+◌, ◌*◌, [], IfOk, fold, suc, length, if◌then◌else◌};
ghost use Rattle.e3_client.specs.Clients.{busy_or};
ghost use Rattle.e3_world.specs.Making.{nothing, and_send, and_tell, attempt_now, log_now, state_now};
ghost use Rattle.e3_types.specs.declared.entries.Input.TheVariants as input;
ghost use Rattle.e3_types.specs.declared.entries.Told.TheVariants as told;
ghost use Rattle.e3_types.specs.declared.messages.Message.TheVariants as msg;
ghost use Rattle.e3_world.specs.Logs.{key_of};
ghost use Rattle.e3_world.specs.Operations.{issued, unanswered};
ghost use Rattle.e3_world.specs.Steps.{refuse, on_begin, and_ask, on_commit, on_expire, on_elect, on_input, handled, step_at};
ghost use Rattle.e3_step.specs.SoFar.{IsSoFar};

use crate::election_rules::and_join;
use crate::grants::and_grants;
use crate::making::{
    Attempt, and_abort, and_attempt, and_cast, and_decide, and_send, and_tell, and_vote,
    attempt_now, decision_now, elected_now, is_present, may_abort, nothing, state_now,
};
use crate::messages::on_message;
use crate::past::Past;
use crate::sending::takes_few;
use e3_client::{refuse_attempted, refuse_open};
use e3_elect::Election;
use e3_laws::steps::steps_send_few;
use e3_readings::{key_of, number_behind};
use e3_types::{Dir, Input, List, Message, NoMemory, Op, Refusal, SiteSet, State, Told, Txn};
use e3_world::Made;
use std::mem;

// The refusal of an operation or a commit, where the transaction is undecided.
fn refuse_undecided<P: Past>(p: &P, t: &Txn, made: &Made) -> Result<Option<Refusal>, NoMemory>
    ensures { IfOk result (λ why. why ≡ busy_or (state_now (P.at p.now) t.now made.now) (attempt_now (P.at p.now) t.now made.now)
        (unanswered t.now (log_now (P.at p.now) made.now) (P.at p.now).life.steps)) }
{
    let unanswered = p.unanswered(t, made)?;
    Ok(refuse_open(state_now(p, t, made), attempt_now(p, t, made), unanswered))
}

/// The first cause that applies: no transaction of this incarnation; decided, with the reason kept; busy; too late.
#[tactic(auto, using(e3_client::proofs::Refusing::open_at))]
pub fn refuse<P: Past>(
    p: &P,
    t: &Txn,
    cancels: bool,
    made: &Made,
) -> Result<Option<Refusal>, NoMemory>
    ensures { IfOk result (λ why. why ≡ refuse (P.at p.now) t.now cancels made.now) }
{
    let kept = p.kept_reason(t)?;
    if let Some(dir) = decision_now(p, t, made) {
        return match kept {
            None => Ok(Some(Refusal::Over { dir })),
            Some(why) => Ok(Some(why)),
        };
    }
    if !is_present(p, t) {
        return Ok(Some(Refusal::NoTxn));
    }
    if cancels {
        return Ok(refuse_attempted(attempt_now(p, t, made)));
    }
    refuse_undecided(p, t, made)
}

/// A begin: the transaction has the next number of the incarnation.
pub fn on_begin<P: Past>(p: &P, sites: SiteSet, made: &mut Made) -> Result<(), NoMemory>
    ensures { IfOk result (λ u. made.new ≡ on_begin (P.at p.now) sites made.old) }
{
    let seq = p.begins() + 1;
    and_tell(
        Told::Began {
            txn: Txn {
                site: p.site(),
                inc: p.inc(),
                seq,
                sites,
            },
        },
        made,
    )
}

/// Another site is asked for its vote, with the incarnation and the number of its answers.
pub fn and_ask<P: Past>(p: &P, t: &Txn, to: u32, made: &mut Made) -> Result<(), NoMemory>
    ensures { IfOk result (λ u. made.new ≡ and_ask (P.at p.now) t.now made.old to) }
{
    let e = p.expected(t, to)?;
    and_send(
        p,
        to,
        Message::VoteReq {
            txn: *t,
            inc: e.inc,
            count: e.count,
        },
        made,
    )
}

fn ask_all<P: Past>(p: &P, t: &Txn, sites: SiteSet, made: &mut Made) -> Result<(), NoMemory>
    ensures { IfOk result (λ u. made.new ≡ fold (and_ask (P.at p.now) t.now) made.old sites) }
{
    for to in sites.iter() {
        and_ask(p, t, to, made)?;
    }
    Ok(())
}

/// A commit: the coordinator votes and asks the other sites, or aborts where it joined an election.
pub fn on_commit<P: Past>(p: &P, t: &Txn, made: &mut Made) -> Result<(), NoMemory>
    ensures { IfOk result (λ u. made.new ≡ on_commit (P.at p.now) t.now made.old) }
{
    if elected_now(p, t, made) != 1 {
        return and_abort(p, t, made);
    }
    and_vote(p, t, made)?;
    let others = t.sites.without(p.site());
    match others.split_first() {
        None => and_attempt(p, Attempt::new(t, 1, Dir::Commit), t.sites, made),
        Some(_) => ask_all(p, t, others, made),
    }
}

/// An expiry: the coordinator aborts if it may, another site if it is in q; else the state is told.
pub fn on_expire<P: Past>(p: &P, t: &Txn, made: &mut Made) -> Result<(), NoMemory>
    ensures { IfOk result (λ u. made.new ≡ on_expire (P.at p.now) t.now made.old) }
{
    if may_abort(p, t, made) {
        return and_abort(p, t, made);
    }
    match state_now(p, t, made) {
        State::Q => and_decide(p, t, Dir::Abort, made),
        state => and_tell(Told::Kept { txn: *t, state }, made),
    }
}

/// An elect: a new call, which drops any election of the transaction here.
pub fn on_elect<P: Past>(p: &P, t: &Txn, group: SiteSet, made: &mut Made) -> Result<(), NoMemory>
    ensures { IfOk result (λ u. made.new ≡ on_elect (P.at p.now) t.now group made.old) }
{
    let call = p.next_call();
    let e = Election::start(p.alloc(), call, group, p.site(), elected_now(p, t, made))?;
    and_cast(p, group, &Message::Ask { txn: *t, call }, made)?;
    and_join(p, t, &e, made)
}

fn on_operation<P: Past>(p: &P, t: &Txn, op: &Op, made: &mut Made) -> Result<(), NoMemory>
    ensures { IfOk result (λ u. made.new ≡ and_send (P.at p.now) (key_of op.now).site (msg.Do t.now (suc (length (issued t.now (P.at p.now).life.steps))) op.now) made.old) }
{
    let n = number_behind(p.issued_count(t)?);
    and_send(
        p,
        key_of(op).site,
        Message::Do {
            txn: *t,
            n,
            op: op.copy(),
        },
        made,
    )
}

fn tell_refused(t: &Txn, refusal: Refusal, made: &mut Made) -> Result<(), NoMemory>
    ensures { IfOk result (λ u. made.new ≡ and_tell (told.Refused t.now refusal) made.old) }
{
    and_tell(Told::Refused { txn: *t, refusal }, made)
}

// A call for an operation, by a step that made nothing yet.
fn take_do<P: Past>(p: &P, t: &Txn, op: &Op, made: &mut Made) -> Result<(), NoMemory>
    requires { made.old ≡ nothing }
    ensures { IfOk result (λ u. made.new ≡ on_input (P.at p.now) (input.Do t.now op.now) nothing) }
{
    match refuse(p, t, false, made)? {
        Some(refusal) => tell_refused(t, refusal, made),
        None => on_operation(p, t, op, made),
    }
}

// A call for an end of the transaction: a cancel, or a commit.
fn take_end<P: Past>(p: &P, t: &Txn, cancels: bool, made: &mut Made) -> Result<(), NoMemory>
    requires { made.old ≡ nothing }
    ensures { IfOk result (λ u. made.new ≡ on_input (P.at p.now) (if cancels then input.Cancel t.now else input.Commit t.now) nothing) }
{
    match (refuse(p, t, cancels, made)?, cancels) {
        (Some(refusal), _) => tell_refused(t, refusal, made),
        (None, true) => and_abort(p, t, made),
        (None, false) => on_commit(p, t, made),
    }
}

// Any input.
fn take<P: Past>(p: &P, input: &Input, made: &mut Made) -> Result<(), NoMemory>
    requires { made.old ≡ nothing }
    ensures { IfOk result (λ u. made.new ≡ on_input (P.at p.now) input.now nothing) }
{
    match input {
        Input::Begin { sites } => on_begin(p, *sites, made),
        Input::Do { txn, op } => take_do(p, txn, op, made),
        Input::Commit { txn } => take_end(p, txn, false, made),
        Input::Cancel { txn } => take_end(p, txn, true, made),
        Input::Expire { txn } => on_expire(p, txn, made),
        Input::Elect { txn, group } => on_elect(p, txn, *group, made),
        Input::Deliver { packet } => on_message(p, packet.from, &packet.msg, made),
    }
}

/// One message of a step to its own site.
pub fn handled<P: Past>(p: &P, m: &Message, made: &mut Made) -> Result<(), NoMemory>
    requires { IsSoFar (P.at p.now) (handled (P.at p.now) made.old m.now) }
    ensures { IfOk result (λ u. made.new ≡ handled (P.at p.now) made.old m.now) }
{
    let seen = made.records.len();
    on_message(p, p.site(), m, made)?;
    and_grants(p, seen, made)?;
    Ok(())
}

/// The messages that wait in the step, the first first; those that they make wait behind them.
pub fn settle_once<P: Past>(p: &P, made: &mut Made) -> Result<(), NoMemory>
    requires { IsSoFar (P.at p.now) (fold (handled (P.at p.now)) (record made.old { own = [] }) made.old.own) }
    ensures { IfOk result (λ u. made.new ≡ fold (handled (P.at p.now)) (record made.old { own = [] }) made.old.own) }
{
    let own = mem::replace(&mut made.own, List::new(p.alloc()));
    for m in own.as_slice() {
        handled(p, m, made)?;
    }
    Ok(())
}

// What the input of this place makes of a step that made nothing yet: what may be refused borrows it.
fn make<P: Past>(p: &P, input: &Input, made: &mut Made) -> Result<(), NoMemory>
    requires input { input.now ≡ (P.at p.now).input }
    requires nothing { made.old ≡ nothing }
    ensures { IfOk result (λ u. made.new ≡ step_at (P.at p.now)) }
{
    take(p, input, made)?;
    and_grants(p, 0, made)?;
    settle_once(p, made)?;
    settle_once(p, made)?;
    settle_once(p, made)
}

/// The step that is made at this place. It has fewer packets than 32 bits count, where it comes behind fewer than 4,000,000,000
/// steps.
pub fn step_at<P: Past>(p: &P) -> Result<Made, NoMemory>
    ensures made { IfOk result (λ made. made ≡ step_at (P.at p.now)) }
    ensures few { IfOk result (λ made. length made.outs ≤ suc (length (P.at p.now).life.steps) + 9 * 64) }
{
    let input = p.input();
    takes_few(p, input)?;
    steps_send_few();
    let mut made = nothing(p.alloc());
    match make(p, input, &mut made) {
        Ok(()) => Ok(made),
        Err(e) => {
            drop(made);
            Err(e)
        }
    }
}
