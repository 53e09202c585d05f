// A client's transaction: what is refused and why, and how answers are taken.
//
// A line of the input is `transaction`, and pieces: `issue:SITE`, an operation, where one may be issued;
// `answer:FROM:NUMBER:INCARNATION`, an answer, and how it is taken; `died`, `lost` and `busy`, reasons of an end; `expected`,
// the incarnation and the number of answers that are expected of each site; `state:STATE:ATTEMPT`, what the client is answered
// to each call, where its transaction has this state and this last attempt.
ghost use Rattle.std.specs.Prelude.{◌≡◌};

use crate::texts::{cut, letter_of, push_text, push_word, small, state_of, triple, txn_of};
use e3_client::{Client, Heard};
use e3_report::Page;
use e3_types::{NoMemory, Refusal, SiteSet, State, Told, Txn};
use std::alloc::Global;

// Adds that a call goes, or why the client is refused, as a report says it.
fn push_told(page: &mut Page, answer: Result<(), Refusal>) {
    match answer {
        Ok(()) => push_word(page, "goes"),
        Err(refusal) => {
            let txn = txn_of(2, SiteSet::one(1).with(2));
            page.text(" ");
            page.told(&Told::Refused { txn, refusal });
        }
    }
}

// Adds the number of the next operation, whether the transaction may commit, and whether it may be cancelled, in this state and
// behind this attempt.
fn push_calls(page: &mut Page, client: &Client, words: &[u8]) {
    let (state, attempt) = cut(words, b':');
    let (state, attempt) = (state_of(state), small(attempt));
    page.text(" operation");
    if client.issued() < 64 {
        match client.next_op(state, attempt) {
            Ok(n) => page.labelled(" ", u64::from(n)),
            Err(why) => push_told(page, Err(why)),
        }
    }
    page.text(", commit");
    push_told(page, client.ready(state, attempt));
    page.text(", cancel");
    push_told(page, client.may_cancel(state, attempt));
}

// Issues an operation at a site of the client's transaction, where one may be.
fn issue(client: &mut Client, txn: &Txn, site: u32)
    requires { client.old.txn ≡ txn.now }
    ensures { client.new.txn ≡ client.old.txn }
{
    if txn.sites.has(site) && client.issued() < 64 && client.next_op(State::Q, 0).is_ok() {
        client.issue(site);
    }
}

// Adds how an answer is taken.
fn push_answer(page: &mut Page, client: &mut Client, from: u32, n: u32, inc: u32)
    ensures { client.new.txn ≡ client.old.txn }
{
    match client.answer(from, n, inc) {
        Heard::Taken => push_word(page, "taken"),
        Heard::Stale => push_word(page, "stale"),
        Heard::Doomed { site, had, now } => {
            page.labelled(" doomed at ", u64::from(site));
            page.labelled(", had ", u64::from(had));
            page.labelled(", now ", u64::from(now));
        }
    }
}

// Adds the incarnation and the number of answers that are expected of each site.
fn push_expected(page: &mut Page, client: &Client) {
    page.text("; expected");
    for site in [1, 2] {
        let (inc, count) = client.expected(site);
        page.labelled(" incarnation ", u64::from(inc));
        page.labelled(" count ", u64::from(count));
    }
}

// A reason of an end, and what is no reason.
fn reason_of(letter: u8) -> Refusal {
    match letter {
        b'd' => Refusal::Died {
            older: txn_of(1, SiteSet::one(1).with(2)),
        },
        b'l' => Refusal::Doomed {
            site: 2,
            had: 3,
            now: 4,
        },
        _ => Refusal::Busy { op: 1 },
    }
}

// Does what a piece says, and adds what the client answers.
fn act(page: &mut Page, client: &mut Client, txn: &Txn, piece: &[u8])
    requires { client.old.txn ≡ txn.now }
    ensures { client.new.txn ≡ client.old.txn }
{
    let (name, rest) = cut(piece, b':');
    let (first, second, third) = triple(rest);
    match letter_of(name) {
        b'i' => issue(client, txn, first),
        b'a' => push_answer(page, client, first, second, third),
        b'e' => push_expected(page, client),
        b's' => push_calls(page, client, rest),
        letter => client.end(reason_of(letter)),
    }
}

// Adds what comes of these pieces at a client of this transaction.
fn push_all(page: &mut Page, client: &mut Client, txn: &Txn, pieces: &[&[u8]])
    requires { client.old.txn ≡ txn.now }
{
    for piece in pieces {
        if !push_text(page, piece) {
            act(page, client, txn, piece);
        }
    }
    page.text("\n");
}

/// Adds what comes of these pieces at the client of a transaction.
pub fn push_pieces(alloc: Global, page: &mut Page, pieces: &[&[u8]]) {
    let txn = txn_of(2, SiteSet::one(1).with(2));
    match Client::begin(alloc, txn) {
        Ok(mut client) => push_all(page, &mut client, &txn, pieces),
        Err(NoMemory) => page.lack(),
    }
}
