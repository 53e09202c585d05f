// Operations of transactions at a site, read off its steps of the present incarnation.
ghost use Rattle.std.specs.Prelude.{◌≡◌, ◌≤◌, ◌<◌, ◌++◌, ◌∷◌, [], ◌&&◌, not, IfOk, length, OnErr, suc, option_copied};
ghost use Rattle.std.specs.List.{list_any, flat_map};
ghost use Rattle.e3_types.specs.Same.{same_txn};
ghost use Rattle.e3_readings.specs.Awaiting.{first_of};
ghost use Rattle.e3_readings.specs.Bringing.{brought, is_new_to, issued_before};
ghost use Rattle.e3_readings.specs.Expecting.{own_expected};
ghost use Rattle.e3_world.specs.Logs.{is_undecided};
ghost use Rattle.e3_world.specs.Operations.{is_refusal, issued_in, issued, nth_op, taken_up, same_asked, is_fresh, and_arrived, arrived_by, arrivals, answer_told, answer_sent, answers, is_answered, performed_by, done, waiting, done_locks, holders, holds, queue, tells_op, op_told, unanswered, expected_with, expected_by, expected, reason_in, kept_reason};

use crate::asked::{asked_of, copy_asked};
use crate::counts::number_behind;
use crate::logs::{is_undecided, key_of, lock_on, state_of, voted_locks};
use e3_locks::mode_among;
use e3_types::{
    Answer, Input, List, Lock, Message, Mode, Name, NoMemory, Op, Packet, Record, Refusal, State,
    Told, Txn,
};
use e3_world::{Asked, Expected, Moment, Performed};
use std::alloc::Global;

fn is_refusal(e: &Told) -> bool
    ensures { result ≡ is_refusal e.now }
{
    matches!(e, Told::Refused { .. })
}

/// Some event among these is a refusal.
pub(crate) fn has_refusal(events: &[Told]) -> bool
    ensures { result ≡ list_any is_refusal events.now }
{
    events.iter().any(|e| is_refusal(e))
}

/// Adds the operation that a step issues, if it issues one of the transaction.
pub fn issued_in(t: &Txn, input: &Input, told: &[Told], out: &mut List<Op>) -> Result<(), NoMemory>
    ensures { IfOk result (λ u. out.new ≡ out.old ++ issued_in t.now input.now told.now) }
{
    match input {
        Input::Do { txn, op } if t.is_same(txn) && !has_refusal(told) => out.push(op.copy()),
        _ => Ok(()),
    }
}

/// The operations of a transaction that these steps of its coordinator issued, in order; the n-th has number n.
pub fn issued(alloc: Global, t: &Txn, steps: &[Moment]) -> Result<List<Op>, NoMemory>
    ensures { IfOk result (λ out. out ≡ issued t.now steps.now) }
{
    let mut out = List::new(alloc);
    for m in steps {
        issued_in(t, &m.input, m.told.as_slice(), &mut out)?;
    }
    Ok(out)
}

/// The operation of this number among those that were issued. Numbers begin with 1.
pub fn nth_op(n: u32, ops: &[Op]) -> Option<&Op>
    ensures { option_copied result ≡ nth_op n ops.now }
{
    match n {
        0 => None,
        _ => ops.get(n as usize - 1),
    }
}

// How many operations of the transaction of a Do input these steps issued, none more than there are steps.
fn issued_before(alloc: Global, input: &Input, steps: &[Moment]) -> Result<u64, NoMemory>
    ensures { IfOk result (λ count. count ≡ issued_before input.now steps.now) }
{
    match input {
        Input::Do { txn, .. } => {
            let ops = issued(alloc, txn, steps)?;
            Ok(ops.len())
        }
        _ => Ok(0),
    }
}

/// The operation that an input brings to the site, where so many of its transaction were issued before and these events are
/// told: that of a Do packet, or of a client's call for a key of the site's own that was not refused.
pub fn brought(site: u32, count: u64, input: &Input, events: &[Told]) -> Option<Asked>
    requires { count < 4294967295 }
    ensures { result ≡ brought site count input.now events.now }
{
    match input {
        Input::Deliver { packet } => match &packet.msg {
            Message::Do { txn, n, op } => Some(asked_of(txn, *n, op)),
            _ => None,
        },
        Input::Do { txn, op } => {
            if !has_refusal(events) && key_of(op).site == site {
                Some(asked_of(txn, number_behind(count), op))
            } else {
                None
            }
        }
        _ => None,
    }
}

// The operation that a step takes up at its site: the one that its input brings. The steps are those before it.
fn taken_up(
    alloc: Global,
    site: u32,
    steps: &[Moment],
    m: &Moment,
) -> Result<Option<Asked>, NoMemory>
    requires { length steps.now < 4294967295 }
    ensures { IfOk result (λ o. o ≡ taken_up site steps.now m.now) }
{
    let before = issued_before(alloc, &m.input, steps)?;
    Ok(brought(site, before, &m.input, m.told.as_slice()))
}

/// The two are the same operation of the same transaction.
pub fn same_asked(a: &Asked, b: &Asked) -> bool
    ensures { result ≡ same_asked a.now b.now }
{
    a.n == b.n && a.txn.is_same(&b.txn)
}

/// The operation is one of these.
pub fn is_among(a: &Asked, asked: &[Asked]) -> bool
    ensures { result ≡ list_any (same_asked a.now) asked.now }
{
    asked.iter().any(|b| same_asked(a, b))
}

/// An operation whose transaction is in this state is new where these came before: the state is q, and it is none of these.
pub fn is_new_to(state: State, came: &[Asked], a: &Asked) -> bool
    ensures { result ≡ is_new_to state came.now a.now }
{
    state == State::Q && !is_among(a, came)
}

fn is_fresh(asked: &[Asked], m: &Moment, a: &Asked) -> bool
    ensures { result ≡ is_fresh asked.now m.now a.now }
{
    is_new_to(state_of(&a.txn, m.before.as_slice()), asked, a)
}

fn and_arrived(m: &Moment, taken: Option<Asked>, asked: &mut List<Asked>) -> Result<(), NoMemory>
    ensures { IfOk result (λ u. asked.new ≡ and_arrived asked.old m.now taken) }
{
    match taken {
        Some(a) => {
            if is_fresh(asked.as_slice(), m, &a) {
                asked.push(a)
            } else {
                Ok(())
            }
        }
        None => Ok(()),
    }
}

fn arrived_by(
    alloc: Global,
    site: u32,
    steps: &[Moment],
    m: &Moment,
    asked: &mut List<Asked>,
) -> Result<(), NoMemory>
    requires { length steps.now < 4294967295 }
    ensures { IfOk result (λ u. record { steps = steps.now ++ m.now ∷ []; asked = asked.new } ≡ arrived_by site (record { steps = steps.now; asked = asked.old }) m.now) }
{
    let taken = taken_up(alloc, site, steps, m)?;
    and_arrived(m, taken, asked)
}

/// The operations that came to a site while their transactions were in q, each once, in the order of arrival.
pub fn arrivals(alloc: Global, site: u32, steps: &[Moment]) -> Result<List<Asked>, NoMemory>
    requires { length steps.now ≤ 4294967295 }
    ensures { IfOk result (λ out. out ≡ arrivals site steps.now) }
{
    let mut asked = List::new(alloc);
    for i in 0..steps.len() {
        arrived_by(alloc, site, &steps[..i], &steps[i], &mut asked)?;
    }
    Ok(asked)
}

fn answer_told(a: &Asked, e: &Told, out: &mut List<Answer>) -> Result<(), NoMemory>
    ensures { IfOk result (λ u. out.new ≡ out.old ++ answer_told a.now e.now) }
{
    match e {
        Told::Op { txn, n, answer } if a.n == *n && a.txn.is_same(txn) => {
            out.push(answer.copy())
        }
        _ => Ok(()),
    }
}

fn answer_sent(a: &Asked, packet: &Packet, out: &mut List<Answer>) -> Result<(), NoMemory>
    ensures { IfOk result (λ u. out.new ≡ out.old ++ answer_sent a.now packet.now) }
{
    match &packet.msg {
        Message::Done { txn, n, answer, .. } if a.n == *n && a.txn.is_same(txn) => {
            out.push(answer.copy())
        }
        _ => Ok(()),
    }
}

fn add_answers(a: &Asked, m: &Moment, out: &mut List<Answer>) -> Result<(), NoMemory>
    ensures { IfOk result (λ u. out.new ≡ out.old ++ (flat_map (answer_told a.now) m.now.told ++ flat_map (answer_sent a.now) m.now.outs)) }
{
    for e in m.told.as_slice() {
        answer_told(a, e, out)?;
    }
    for packet in m.outs.as_slice() {
        answer_sent(a, packet, out)?;
    }
    Ok(())
}

/// All answers to an operation that these steps show, told to the client or sent, in order.
pub fn answers(alloc: Global, a: &Asked, steps: &[Moment]) -> Result<List<Answer>, NoMemory>
    ensures { IfOk result (λ out. out ≡ answers a.now steps.now) }
{
    let mut out = List::new(alloc);
    for m in steps {
        add_answers(a, m, &mut out)?;
    }
    Ok(out)
}

// The operation was answered in these steps.
fn is_answered(alloc: Global, steps: &[Moment], a: &Asked) -> Result<bool, NoMemory>
    ensures { IfOk result (λ b. b ≡ is_answered steps.now a.now) }
{
    let found = answers(alloc, a, steps)?;
    match found.as_slice() {
        [] => Ok(false),
        [_, ..] => Ok(true),
    }
}

// Adds the operation with its first answer, if it was answered.
fn performed_by(
    alloc: Global,
    steps: &[Moment],
    a: &Asked,
    out: &mut List<Performed>,
) -> Result<(), NoMemory>
    ensures ok { IfOk result (λ u. out.new ≡ out.old ++ performed_by steps.now a.now) }
    ensures err { OnErr result (out.new ≡ out.old) }
{
    let found = answers(alloc, a, steps)?;
    match found.as_slice() {
        [] => Ok(()),
        [answer, ..] => out.push(Performed {
            n: a.n,
            op: a.op.copy(),
            answer: answer.copy(),
        }),
    }
}

/// The operations of a transaction that the site answered in its present incarnation, in the order of arrival.
pub fn done(
    alloc: Global,
    site: u32,
    t: &Txn,
    steps: &[Moment],
) -> Result<List<Performed>, NoMemory>
    requires { length steps.now ≤ 4294967295 }
    ensures { IfOk result (λ out. out ≡ done site t.now steps.now) }
{
    let all = arrivals(alloc, site, steps)?;
    let mut out = List::new(alloc);
    for a in all.as_slice() {
        if t.is_same(&a.txn) {
            performed_by(alloc, steps, a, &mut out)?;
        }
    }
    Ok(out)
}

fn is_waiting(alloc: Global, log: &[Record], steps: &[Moment], a: &Asked) -> Result<bool, NoMemory>
    ensures { IfOk result (λ b. b ≡ (is_undecided a.now.txn log.now && not (is_answered steps.now a.now))) }
{
    Ok(is_undecided(&a.txn, log) && !is_answered(alloc, steps, a)?)
}

/// The operations of undecided transactions that are not done, in the order of arrival.
pub fn waiting(
    alloc: Global,
    site: u32,
    log: &[Record],
    steps: &[Moment],
) -> Result<List<Asked>, NoMemory>
    requires { length steps.now ≤ 4294967295 }
    ensures { IfOk result (λ out. out ≡ waiting site log.now steps.now) }
{
    let all = arrivals(alloc, site, steps)?;
    let mut out = List::new(alloc);
    for a in all.as_slice() {
        if is_waiting(alloc, log, steps, a)? {
            out.push(copy_asked(a))?;
        }
    }
    Ok(out)
}

fn is_holding(alloc: Global, log: &[Record], steps: &[Moment], a: &Asked) -> Result<bool, NoMemory>
    ensures { IfOk result (λ b. b ≡ (is_undecided a.now.txn log.now && is_answered steps.now a.now)) }
{
    Ok(is_undecided(&a.txn, log) && is_answered(alloc, steps, a)?)
}

// The locks on a name of the operations that were done for undecided transactions, in the order of arrival.
fn done_locks(
    alloc: Global,
    site: u32,
    name: &Name,
    log: &[Record],
    steps: &[Moment],
) -> Result<List<Lock>, NoMemory>
    requires { length steps.now ≤ 4294967295 }
    ensures { IfOk result (λ out. out ≡ done_locks site name.now log.now steps.now) }
{
    let all = arrivals(alloc, site, steps)?;
    let mut out = List::new(alloc);
    for a in all.as_slice() {
        if is_holding(alloc, log, steps, a)? {
            lock_on(name, &a.txn, &a.op, &mut out)?;
        }
    }
    Ok(out)
}

/// The locks on a name that are held, for operations done and behind them for votes, of undecided transactions.
pub fn holders(
    alloc: Global,
    site: u32,
    name: &Name,
    log: &[Record],
    steps: &[Moment],
) -> Result<List<Lock>, NoMemory>
    requires { length steps.now ≤ 4294967295 }
    ensures { IfOk result (λ out. out ≡ holders site name.now log.now steps.now) }
{
    let mut out = done_locks(alloc, site, name, log, steps)?;
    let voted = voted_locks(alloc, name, log)?;
    out.extend(voted.as_slice())?;
    Ok(out)
}

/// The mode in which a transaction holds a name, if it does.
pub fn holds(
    alloc: Global,
    site: u32,
    t: &Txn,
    name: &Name,
    log: &[Record],
    steps: &[Moment],
) -> Result<Option<Mode>, NoMemory>
    requires { length steps.now ≤ 4294967295 }
    ensures { IfOk result (λ mode. mode ≡ holds site t.now name.now log.now steps.now) }
{
    let locks = holders(alloc, site, name, log, steps)?;
    Ok(mode_among(t, locks.as_slice()))
}

/// The locks on a name for which these operations wait, in their order.
pub fn queue(alloc: Global, name: &Name, asked: &[Asked]) -> Result<List<Lock>, NoMemory>
    ensures { IfOk result (λ out. out ≡ queue name.now asked.now) }
{
    let mut out = List::new(alloc);
    for a in asked {
        lock_on(name, &a.txn, &a.op, &mut out)?;
    }
    Ok(out)
}

// The event answers this operation to the client.
fn tells_op(t: &Txn, n: u32, e: &Told) -> bool
    ensures { result ≡ tells_op t.now n e.now }
{
    match e {
        Told::Op { txn, n: m, .. } => n == *m && t.is_same(txn),
        _ => false,
    }
}

fn tell_op(t: &Txn, n: u32, events: &[Told]) -> bool
    ensures { result ≡ list_any (tells_op t.now n) events.now }
{
    events.iter().any(|e| tells_op(t, n, e))
}

fn tells(t: &Txn, n: u32, m: &Moment) -> bool
    ensures { result ≡ list_any (tells_op t.now n) m.now.told }
{
    tell_op(t, n, m.told.as_slice())
}

// Some step answered the operation to the client.
fn op_told(t: &Txn, n: u32, steps: &[Moment]) -> bool
    ensures { result ≡ op_told t.now n steps.now }
{
    steps.iter().any(|m| tells(t, n, m))
}

/// The number of the operation that is unanswered: the last issued, where the client was told no answer to it and the
/// transaction is undecided.
pub fn unanswered(
    alloc: Global,
    t: &Txn,
    log: &[Record],
    steps: &[Moment],
) -> Result<Option<u32>, NoMemory>
    requires { length steps.now ≤ 4294967295 }
    ensures { IfOk result (λ o. o ≡ unanswered t.now log.now steps.now) }
{
    let ops = issued(alloc, t, steps)?;
    let n = ops.len() as u32;
    if n != 0 && is_undecided(t, log) && !op_told(t, n, steps) {
        Ok(Some(n))
    } else {
        Ok(None)
    }
}

/// The answer to an operation of transaction u counts: u is t, and its answer is told among these events.
pub fn tells_own(t: &Txn, u: &Txn, n: u32, events: &[Told]) -> bool
    ensures { result ≡ (same_txn t.now u.now && list_any (tells_op t.now n) events.now) }
{
    t.is_same(u) && tell_op(t, n, events)
}

fn one_more(was: Expected, inc: u32) -> Expected
    requires { was.count < 4294967295 }
    ensures { result ≡ record { inc = inc; count = suc was.count } }
{
    Expected {
        inc,
        count: was.count + 1,
    }
}

fn expected_with(t: &Txn, was: Expected, events: &[Told], msg: &Message) -> Expected
    requires { was.count < 4294967295 }
    ensures { result ≡ expected_with t.now was events.now msg.now }
{
    match msg {
        Message::Done { txn, n, inc, .. } => {
            if tells_own(t, txn, *n, events) {
                one_more(was, *inc)
            } else {
                was
            }
        }
        _ => was,
    }
}

// What is expected of another site behind one more step: a Done of it counts where its answer was told to the client.
fn expected_by(t: &Txn, site: u32, was: Expected, m: &Moment) -> Expected
    requires { was.count < 4294967295 }
    ensures { result ≡ expected_by t.now site was m.now }
{
    match &m.input {
        Input::Deliver { packet } if packet.from == site => {
            expected_with(t, was, m.told.as_slice(), &packet.msg)
        }
        _ => was,
    }
}

/// What is expected of the coordinator's own site, which has done these in this incarnation.
pub fn own_expected(inc: u32, done: &[Performed]) -> Expected
    requires { length done.now ≤ 4294967295 }
    ensures { result ≡ own_expected inc done.now }
{
    match done {
        [] => Expected { inc: 0, count: 0 },
        [_, ..] => Expected {
            inc,
            count: done.len() as u32,
        },
    }
}

fn own_answers(
    alloc: Global,
    coordinator: u32,
    inc: u32,
    t: &Txn,
    steps: &[Moment],
) -> Result<Expected, NoMemory>
    requires { length steps.now ≤ 4294967295 }
    ensures { IfOk result (λ e. e ≡ expected coordinator inc t.now steps.now coordinator) }
{
    let answered = done(alloc, coordinator, t, steps)?;
    Ok(own_expected(inc, answered.as_slice()))
}

/// Under which incarnation a site answered operations of a transaction, and how many, as far as its coordinator, at the
/// site `coordinator`, knows. The coordinator's own answers count with its present incarnation.
pub fn expected(
    alloc: Global,
    coordinator: u32,
    inc: u32,
    t: &Txn,
    steps: &[Moment],
    site: u32,
) -> Result<Expected, NoMemory>
    requires { length steps.now ≤ 4294967295 }
    ensures { IfOk result (λ e. e ≡ expected coordinator inc t.now steps.now site) }
{
    if coordinator == site {
        return own_answers(alloc, coordinator, inc, t, steps);
    }
    let mut e = Expected { inc: 0, count: 0 };
    for m in steps {
        e = expected_by(t, site, e, m);
    }
    Ok(e)
}

fn reason_in(t: &Txn, e: &Told, out: &mut List<Refusal>) -> Result<(), NoMemory>
    ensures { IfOk result (λ u. out.new ≡ out.old ++ reason_in t.now e.now) }
{
    match e {
        Told::Died { txn, older } if t.is_same(txn) => out.push(Refusal::Died { older: *older }),
        Told::Doomed {
            txn,
            site,
            had,
            now,
        } if t.is_same(txn) => out.push(Refusal::Doomed {
            site: *site,
            had: *had,
            now: *now,
        }),
        _ => Ok(()),
    }
}

/// Adds the reasons for an abort of the transaction that these events tell.
pub fn reasons_in(t: &Txn, events: &[Told], out: &mut List<Refusal>) -> Result<(), NoMemory>
    ensures { IfOk result (λ u. out.new ≡ out.old ++ flat_map (reason_in t.now) events.now) }
{
    for e in events {
        reason_in(t, e, out)?;
    }
    Ok(())
}

/// The reasons, told in place of an end, for which a transaction was aborted. Where there is one, the first is kept.
pub fn kept_reason(alloc: Global, t: &Txn, steps: &[Moment]) -> Result<List<Refusal>, NoMemory>
    ensures { IfOk result (λ out. out ≡ kept_reason t.now steps.now) }
{
    let mut out = List::new(alloc);
    for m in steps {
        reasons_in(t, m.told.as_slice(), &mut out)?;
    }
    Ok(out)
}

/// The first of these reasons, which is the one that is kept.
pub fn first_reason(reasons: &[Refusal]) -> Option<Refusal>
    ensures { result ≡ first_of reasons.now }
{
    match reasons {
        [] => None,
        [why, ..] => Some(*why),
    }
}
