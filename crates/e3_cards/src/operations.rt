// What is read of the operations of a transaction, by its card and the step so far.
ghost use Rattle.std.specs.Prelude.{◌≡◌, ◌<◌, ◌≤◌, ◌++◌, ◌==◌, ◌&&◌, not, IfOk, length, fold, is_none, option_copied};
ghost use Rattle.std.specs.List.{list_any, flat_map};
ghost use Rattle.e3_world.specs.Making.{own_write};
ghost use Rattle.e3_world.specs.Operations.{issued_in, nth_op, same_asked};
ghost use Rattle.e3_cards.specs.Arriving.{performed_in, has_heard, answer_in, came_by, heard_in, taken_of};
ghost use Rattle.e3_cards.specs.Cards.{kept};
ghost use Rattle.e3_cards.specs.Issued.{expect_by, number_told};
ghost use Rattle.e3_readings.specs.Awaiting.{is_number, is_at_site};
ghost use Rattle.e3_cards.specs.Readings.{unanswered_of, expected_of, done_of, done_with};
ghost use Rattle.e3_cards.specs.Seeing.{seen_by};

use crate::arriving::{add_came, add_heard, taken_of};
use crate::card::{Card, Counted, Heard};
use crate::copying::{add_all_heard, add_ops};
use crate::issued::add_numbers;
use crate::kept::{answered_of, came_of, counted_of, heard_of, issued_of, seen_of};
use crate::seen::seen_behind;
use e3_readings::{add_asked, is_among, issued_in, key_of, last_own, nth_op, number_behind};
use e3_types::{Answer, Input, List, Name, NoMemory, Op, Txn};
use e3_world::{Asked, Expected, Made, Performed};
use std::alloc::Global;

fn add_performed(heard: &[Heard], a: &Asked, out: &mut List<Performed>) -> Result<(), NoMemory>
    ensures { IfOk result (λ u. out.new ≡ out.old ++ performed_in heard.now a.now) }
{
    match heard {
        [] => Ok(()),
        [h, rest @ ..] => {
            if a.n == h.n {
                out.push(Performed {
                    n: a.n,
                    op: a.op.copy(),
                    answer: h.answer.copy(),
                })
            } else {
                add_performed(rest, a, out)
            }
        }
    }
}

fn performed(alloc: Global, came: &[Asked], heard: &[Heard]) -> Result<List<Performed>, NoMemory>
    ensures { IfOk result (λ out. out ≡ flat_map (performed_in heard.now) came.now) }
{
    let mut out = List::new(alloc);
    for a in came {
        add_performed(heard, a, &mut out)?;
    }
    Ok(out)
}

/// The operations that are done, in the order of arrival.
pub(crate) fn done_of(alloc: Global, card: Option<&Card>) -> Result<List<Performed>, NoMemory>
    ensures { IfOk result (λ out. out ≡ done_of (kept (option_copied card.entry))) }
{
    performed(alloc, came_of(card), heard_of(card))
}

// The operations that came, with the one that the step takes up.
fn came_with(
    alloc: Global,
    site: u32,
    t: &Txn,
    card: Option<&Card>,
    input: &Input,
    made: &Made,
) -> Result<List<Asked>, NoMemory>
    requires { length (kept (option_copied card)).issued < 4294967295 }
    ensures { IfOk result (λ came. came ≡ came_by (kept (option_copied card.entry)).seen (kept (option_copied card.entry)).came (taken_of site t.now (length (kept (option_copied card.entry)).issued) input.now made.now.told)) }
{
    let mut came = List::new(alloc);
    add_asked(came_of(card), &mut came)?;
    let taken = taken_of(
        site,
        t,
        issued_of(card).len() as u64,
        input,
        made.told.as_slice(),
    );
    add_came(&seen_of(card), taken, &mut came)?;
    Ok(came)
}

// The answers, with those that the step shows.
fn heard_with(
    alloc: Global,
    t: &Txn,
    card: Option<&Card>,
    made: &Made,
) -> Result<List<Heard>, NoMemory>
    ensures { IfOk result (λ heard. heard ≡ (kept (option_copied card.entry)).heard ++ heard_in t.now made.now.told made.now.outs) }
{
    let mut heard = List::new(alloc);
    add_all_heard(heard_of(card), &mut heard)?;
    add_heard(t, made.told.as_slice(), made.outs.as_slice(), &mut heard)?;
    Ok(heard)
}

/// The operations that are done with the step so far.
pub(crate) fn done_with(
    alloc: Global,
    site: u32,
    t: &Txn,
    card: Option<&Card>,
    input: &Input,
    made: &Made,
) -> Result<List<Performed>, NoMemory>
    requires { length (kept (option_copied card)).issued < 4294967295 }
    ensures { IfOk result (λ out. out ≡ done_with site t.now (kept (option_copied card.entry)) input.now made.now) }
{
    let came = came_with(alloc, site, t, card, input, made)?;
    let heard = heard_with(alloc, t, card, made)?;
    performed(alloc, came.as_slice(), heard.as_slice())
}

fn has_heard(heard: &[Heard], a: &Asked) -> bool
    ensures { result ≡ has_heard heard.now a.now }
{
    heard.iter().any(|h| a.n == h.n)
}

fn has_unheard(came: &[Asked], heard: &[Heard]) -> bool
    ensures { result ≡ list_any (λ a. not (has_heard heard.now a)) came.now }
{
    came.iter().any(|a| !has_heard(heard, a))
}

fn is_open(t: &Txn, card: Option<&Card>, made: &Made) -> bool
    ensures { result ≡ is_none (fold (seen_by t.now) (kept (option_copied card.entry)).seen made.now.records).decision }
{
    seen_behind(t, seen_of(card), made.records.as_slice())
        .decision
        .is_none()
}

/// An operation of the transaction waits, and the transaction is undecided now.
pub(crate) fn waits_now(t: &Txn, card: Option<&Card>, made: &Made) -> bool
    ensures { result ≡ (is_none (fold (seen_by t.now) (kept (option_copied card.entry)).seen made.now.records).decision && list_any (λ a. not (has_heard (kept (option_copied card.entry)).heard a)) (kept (option_copied card.entry)).came) }
{
    is_open(t, card, made) && has_unheard(came_of(card), heard_of(card))
}

fn is_unheard(card: Option<&Card>, q: &Asked) -> bool
    ensures { result ≡ (list_any (same_asked q.now) (kept (option_copied card.entry)).came && not (has_heard (kept (option_copied card.entry)).heard q.now)) }
{
    is_among(q, came_of(card)) && !has_heard(heard_of(card), q)
}

/// The operation waits, and its transaction is undecided now.
pub(crate) fn is_waiting_now(q: &Asked, card: Option<&Card>, made: &Made) -> bool
    ensures { result ≡ (is_none (fold (seen_by q.now.txn) (kept (option_copied card.entry)).seen made.now.records).decision && (list_any (same_asked q.now) (kept (option_copied card.entry)).came && not (has_heard (kept (option_copied card.entry)).heard q.now))) }
{
    is_open(&q.txn, card, made) && is_unheard(card, q)
}

fn answer_in(heard: &[Heard], n: u32) -> Option<Answer>
    ensures { result ≡ answer_in heard.now n }
{
    match heard {
        [] => None,
        [h, rest @ ..] => {
            if n == h.n {
                Some(h.answer.copy())
            } else {
                answer_in(rest, n)
            }
        }
    }
}

/// The first answer to the operation of this number.
pub(crate) fn answer_of(card: Option<&Card>, n: u32) -> Option<Answer>
    ensures { result ≡ answer_in (kept (option_copied card.entry)).heard n }
{
    answer_in(heard_of(card), n)
}

fn has_number(n: u32, told: &[u32]) -> bool
    ensures { result ≡ list_any (λ m. n == m) told.now }
{
    told.iter().any(|m| n == *m)
}

fn unanswered_of(count: u64, told: &[u32], undecided: bool) -> Option<u32>
    requires { count ≤ 4294967295 }
    ensures { result ≡ unanswered_of count told.now undecided }
{
    if count == 0 {
        return None;
    }
    let n = number_behind(count - 1);
    if undecided && !has_number(n, told) {
        Some(n)
    } else {
        None
    }
}

/// The number of the unanswered operation behind the steps before this one, if the transaction is undecided now.
pub(crate) fn unanswered_now(t: &Txn, card: Option<&Card>, made: &Made) -> Option<u32>
    requires { length (kept (option_copied card)).issued ≤ 4294967295 }
    ensures { result ≡ unanswered_of (length (kept (option_copied card.entry)).issued) (kept (option_copied card.entry)).answered (is_none (fold (seen_by t.now) (kept (option_copied card.entry)).seen made.now.records).decision) }
{
    let undecided = is_open(t, card, made);
    unanswered_of(issued_of(card).len() as u64, answered_of(card), undecided)
}

fn is_number(n: u32, awaited: Option<u32>) -> bool
    ensures { result ≡ is_number n awaited }
{
    awaited == Some(n)
}

fn is_at_site(f: u32, n: u32, ops: &[Op]) -> bool
    ensures { result ≡ is_at_site f (nth_op n ops.now) }
{
    match nth_op(n, ops) {
        Some(op) => key_of(op).site == f,
        None => false,
    }
}

// The operations that were issued, with the one that the step issues.
fn issued_with(
    alloc: Global,
    t: &Txn,
    card: Option<&Card>,
    input: &Input,
    made: &Made,
) -> Result<List<Op>, NoMemory>
    ensures { IfOk result (λ ops. ops ≡ (kept (option_copied card.entry)).issued ++ issued_in t.now input.now made.now.told) }
{
    let mut ops = List::new(alloc);
    add_ops(issued_of(card), &mut ops)?;
    issued_in(t, input, made.told.as_slice(), &mut ops)?;
    Ok(ops)
}

// The numbers of the operations whose answers were told, with those of the step.
fn answered_with(
    alloc: Global,
    t: &Txn,
    card: Option<&Card>,
    made: &Made,
) -> Result<List<u32>, NoMemory>
    ensures { IfOk result (λ told. told ≡ (kept (option_copied card.entry)).answered ++ flat_map (number_told t.now) made.now.told) }
{
    let mut told = List::new(alloc);
    told.extend(answered_of(card))?;
    add_numbers(t, made.told.as_slice(), &mut told)?;
    Ok(told)
}

/// Operation n is the unanswered one with the step so far, and its key is at site f.
pub(crate) fn awaits(
    alloc: Global,
    f: u32,
    t: &Txn,
    n: u32,
    card: Option<&Card>,
    input: &Input,
    made: &Made,
) -> Result<bool, NoMemory>
    requires { length (kept (option_copied card)).issued < 4294967295 }
    ensures { IfOk result (λ b. b ≡ (is_number n (unanswered_of (length ((kept (option_copied card.entry)).issued ++ issued_in t.now input.now made.now.told)) ((kept (option_copied card.entry)).answered ++ flat_map (number_told t.now) made.now.told) (is_none (fold (seen_by t.now) (kept (option_copied card.entry)).seen made.now.records).decision))
        && is_at_site f (nth_op n ((kept (option_copied card.entry)).issued ++ issued_in t.now input.now made.now.told)))) }
{
    let ops = issued_with(alloc, t, card, input, made)?;
    let told = answered_with(alloc, t, card, made)?;
    let last = unanswered_of(ops.len(), told.as_slice(), is_open(t, card, made));
    Ok(is_number(n, last) && is_at_site(f, n, ops.as_slice()))
}

fn expect_by(site: u32, was: Expected, c: &Counted) -> Expected
    requires { was.count < 4294967295 }
    ensures { result ≡ expect_by site was c.now }
{
    if c.site == site {
        Expected {
            inc: c.inc,
            count: was.count + 1,
        }
    } else {
        was
    }
}

/// What is expected of another site.
pub(crate) fn expected_of(site: u32, card: Option<&Card>) -> Expected
    requires { length (kept (option_copied card)).counted ≤ 4294967295 }
    ensures { result ≡ expected_of site (kept (option_copied card.entry)) }
{
    let mut e = Expected { inc: 0, count: 0 };
    for c in counted_of(card) {
        e = expect_by(site, e, c);
    }
    e
}

/// The value of the transaction's last write of this name, with the step so far, or else the row.
pub(crate) fn own_with(
    alloc: Global,
    site: u32,
    t: &Txn,
    name: &Name,
    row: Answer,
    card: Option<&Card>,
    input: &Input,
    made: &Made,
) -> Result<Answer, NoMemory>
    requires { length (kept (option_copied card)).issued < 4294967295 }
    ensures { IfOk result (λ x. x ≡ fold (own_write name.now) row (done_with site t.now (kept (option_copied card.entry)) input.now made.now)) }
{
    let done = done_with(alloc, site, t, card, input, made)?;
    Ok(last_own(name, row, done.as_slice()))
}
