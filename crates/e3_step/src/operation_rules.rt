// What a site does with an operation, with its answer, and with the news that one died.
ghost use Rattle.std.specs.Prelude.{◌≡◌, IfOk, if◌then◌else◌};
ghost use Rattle.e3_types.specs.declared.entries.Told.TheVariants as told;
ghost use Rattle.e3_types.specs.declared.messages.Message.TheVariants as msg;
ghost use Rattle.e3_types.specs.declared.transactions.Dir.TheVariants.{Abort};
ghost use Rattle.e3_step.specs.Asking.{by_grant, asked_by, on_asked};
ghost use Rattle.e3_step.specs.SoFar.{IsSoFar};
ghost use Rattle.e3_world.specs.Making.{is_coordinator, may_abort, and_send, and_decide, and_abort_for};
ghost use Rattle.e3_world.specs.OperationRules.{on_do, on_done, on_died};

use crate::making::{
    and_abort, and_abort_for, and_decide, and_do, and_send, and_tell, is_coordinator, is_present,
    may_abort, open_now, send_done, state_now, vote_of,
};
use crate::past::Past;
use e3_client::kept_locks;
use e3_readings::asked_of;
use e3_types::{Answer, Dir, Grant, Message, NoMemory, Op, State, Told, Txn};
use e3_world::{Asked, Made};

// The request's transaction dies: its coordinator aborts it, another site tells the coordinator.
fn die<P: Past>(p: &P, q: &Asked, older: Txn, made: &mut Made) -> Result<(), NoMemory>
    ensures { IfOk result (λ u. made.new ≡ (if is_coordinator (P.at p.now) q.now.txn then and_abort_for (P.at p.now) q.now.txn (told.Died q.now.txn older) made.old
        else and_send (P.at p.now) q.now.txn.site (msg.Died q.now.txn q.now.n older) (and_decide (P.at p.now) q.now.txn Abort made.old))) }
{
    let t = &q.txn;
    if is_coordinator(p, t) {
        return and_abort_for(p, t, Told::Died { txn: *t, older }, made);
    }
    and_decide(p, t, Dir::Abort, made)?;
    let news = Message::Died {
        txn: *t,
        n: q.n,
        older,
    };
    and_send(p, t.site, news, made)
}

fn by_grant<P: Past>(p: &P, q: &Asked, grant: Grant, made: &mut Made) -> Result<(), NoMemory>
    requires { IsSoFar (P.at p.now) made.old }
    ensures { IfOk result (λ u. made.new ≡ by_grant (P.at p.now) q.now made.old grant) }
{
    match grant {
        Grant::Held => and_do(p, q, made),
        Grant::Waits => Ok(()),
        Grant::Dies { older } => die(p, q, older, made),
    }
}

fn unless_waiting<P: Past>(
    p: &P,
    q: &Asked,
    waits: bool,
    grant: Grant,
    made: &mut Made,
) -> Result<(), NoMemory>
    requires { IsSoFar (P.at p.now) made.old }
    ensures { IfOk result (λ u. made.new ≡ (if waits then made.old else by_grant (P.at p.now) q.now made.old grant)) }
{
    if waits {
        Ok(())
    } else {
        by_grant(p, q, grant, made)
    }
}

fn asked_by<P: Past>(
    p: &P,
    q: &Asked,
    found: Option<Answer>,
    waits: bool,
    grant: Grant,
    made: &mut Made,
) -> Result<(), NoMemory>
    requires { IsSoFar (P.at p.now) made.old }
    ensures { IfOk result (λ u. made.new ≡ asked_by (P.at p.now) q.now made.old found waits grant) }
{
    match found {
        Some(answer) => send_done(p, q, answer, made),
        None => unless_waiting(p, q, waits, grant, made),
    }
}

fn on_asked<P: Past>(p: &P, q: &Asked, made: &mut Made) -> Result<(), NoMemory>
    requires { IsSoFar (P.at p.now) made.old }
    ensures { IfOk result (λ u. made.new ≡ on_asked (P.at p.now) q.now made.old) }
{
    let found = p.answer(q)?;
    let waits = p.is_waiting(q, made)?;
    let grant = p.lock(q, made)?;
    asked_by(p, q, found, waits, grant, made)
}

/// A request for a lock, from site f: the operation is done, waits, or its transaction dies.
pub fn on_do<P: Past>(
    p: &P,
    f: u32,
    t: &Txn,
    n: u32,
    op: &Op,
    made: &mut Made,
) -> Result<(), NoMemory>
    requires { IsSoFar (P.at p.now) made.old }
    ensures { IfOk result (λ u. made.new ≡ on_do (P.at p.now) f t.now n op.now made.old) }
{
    match state_now(p, t, made) {
        State::A => and_send(p, f, vote_of(t, false), made),
        State::Q => {
            let q = asked_of(t, n, op);
            on_asked(p, &q, made)?;
            Ok(())
        }
        _ => Ok(()),
    }
}

// A site that answered under an incarnation answers under another one: the coordinator aborts, if it may.
fn doom<P: Past>(
    p: &P,
    t: &Txn,
    site: u32,
    had: u32,
    now: u32,
    made: &mut Made,
) -> Result<(), NoMemory>
    ensures { IfOk result (λ u. made.new ≡ (if may_abort (P.at p.now) t.now made.old
        then and_abort_for (P.at p.now) t.now (told.Doomed t.now site had now) made.old else made.old)) }
{
    if !may_abort(p, t, made) {
        return Ok(());
    }
    let why = Told::Doomed {
        txn: *t,
        site,
        had,
        now,
    };
    and_abort_for(p, t, why, made)
}

/// The answer to the unanswered operation, from site f, is told; under another incarnation of f than its earlier
/// answers the transaction is doomed.
pub fn on_done<P: Past>(
    p: &P,
    f: u32,
    t: &Txn,
    n: u32,
    inc: u32,
    answer: &Answer,
    made: &mut Made,
) -> Result<(), NoMemory>
    ensures { IfOk result (λ u. made.new ≡ on_done (P.at p.now) f t.now n inc answer.now made.old) }
{
    if !(is_coordinator(p, t) && is_present(p, t) && open_now(p, t, made)) {
        return Ok(());
    }
    if !p.is_awaited(f, t, n, made)? {
        return Ok(());
    }
    let e = p.expected(t, f)?;
    if !kept_locks(e.count, e.inc, inc) {
        return doom(p, t, f, e.inc, inc, made);
    }
    let answer = answer.copy();
    and_tell(Told::Op { txn: *t, n, answer }, made)
}

/// A request of the transaction died elsewhere: the coordinator aborts, if it may.
pub fn on_died<P: Past>(p: &P, t: &Txn, older: Txn, made: &mut Made) -> Result<(), NoMemory>
    ensures { IfOk result (λ u. made.new ≡ on_died (P.at p.now) t.now older made.old) }
{
    if !may_abort(p, t, made) {
        return Ok(());
    }
    if is_present(p, t) {
        and_abort_for(p, t, Told::Died { txn: *t, older }, made)
    } else {
        and_abort(p, t, made)
    }
}
