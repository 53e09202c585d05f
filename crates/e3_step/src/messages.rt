// What a site does with each message.
ghost use Rattle.std.specs.Prelude.{◌≡◌, IfOk, if◌then◌else◌};
ghost use Rattle.e3_types.specs.declared.messages.Message.TheVariants as msg;
ghost use Rattle.e3_world.specs.Making.{and_abort, may_abort};
ghost use Rattle.e3_world.specs.Messages.{on_message};
ghost use Rattle.e3_step.specs.SoFar.{IsSoFar};

use crate::attempt_rules::{on_ack, on_pre};
use crate::election_rules::{on_elected, on_last, on_report};
use crate::making::{Attempt, and_abort, and_decide, and_send, elected_now, may_abort, may_decide};
use crate::operation_rules::{on_died, on_do, on_done};
use crate::past::Past;
use crate::vote_rules::{on_vote_req, on_yes};
use e3_types::{Call, Dir, Message, NoMemory, SiteReport, Txn};
use e3_world::{Expected, Made};

fn on_ask<P: Past>(p: &P, f: u32, t: &Txn, call: Call, made: &mut Made) -> Result<(), NoMemory>
    ensures { IfOk result (λ u. made.new ≡ on_message (P.at p.now) f (msg.Ask t.now call) made.old) }
{
    let elected = elected_now(p, t, made);
    let answer = Message::LastElected {
        txn: *t,
        call,
        elected,
    };
    and_send(p, f, answer, made)
}

// A no: the coordinator aborts, if it may.
fn on_no<P: Past>(p: &P, t: &Txn, made: &mut Made) -> Result<(), NoMemory>
    ensures { IfOk result (λ u. made.new ≡ (if may_abort (P.at p.now) t.now made.old then and_abort (P.at p.now) t.now made.old else made.old)) }
{
    if may_abort(p, t, made) {
        and_abort(p, t, made)
    } else {
        Ok(())
    }
}

fn on_decide<P: Past>(p: &P, f: u32, t: &Txn, dir: Dir, made: &mut Made) -> Result<(), NoMemory>
    ensures { IfOk result (λ u. made.new ≡ on_message (P.at p.now) f (msg.Decide t.now dir) made.old) }
{
    if may_decide(p, t, dir, made) {
        and_decide(p, t, dir, made)
    } else {
        Ok(())
    }
}

/// Each message, from site f.
pub fn on_message<P: Past>(p: &P, f: u32, m: &Message, made: &mut Made) -> Result<(), NoMemory>
    requires { IsSoFar (P.at p.now) made.old }
    ensures { IfOk result (λ u. made.new ≡ on_message (P.at p.now) f m.now made.old) }
{
    match m {
        Message::Do { txn, n, op } => on_do(p, f, txn, *n, op, made),
        Message::Done {
            txn,
            n,
            inc,
            answer,
        } => on_done(p, f, txn, *n, *inc, answer, made),
        Message::Died { txn, older, .. } => on_died(p, txn, *older, made),
        Message::Ask { txn, call } => on_ask(p, f, txn, *call, made),
        Message::LastElected { txn, call, elected } => on_last(p, f, txn, *call, *elected, made),
        Message::Elected { txn, n } => on_elected(p, f, txn, *n, made),
        Message::Report {
            txn,
            n,
            state,
            attempt,
        } => {
            let report = SiteReport {
                site: f,
                state: *state,
                attempt: *attempt,
            };
            on_report(p, txn, *n, report, made)
        }
        Message::VoteReq { txn, inc, count } => {
            let asked = Expected {
                inc: *inc,
                count: *count,
            };
            on_vote_req(p, f, txn, asked, made)
        }
        Message::Vote { txn, yes: true } => on_yes(p, txn, made),
        Message::Vote { txn, yes: false } => on_no(p, txn, made),
        Message::Pre { txn, n, dir } => on_pre(p, f, Attempt::new(txn, *n, *dir), made),
        Message::Ack { txn, n, dir } => on_ack(p, f, Attempt::new(txn, *n, *dir), made),
        Message::Decide { txn, dir } => on_decide(p, f, txn, *dir, made),
    }
}
