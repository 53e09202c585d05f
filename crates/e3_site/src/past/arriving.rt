// The operation that a step takes up, where it did not come before.
ghost use Rattle.std.specs.Prelude.{◌≡◌, ◌<◌, option_copied, unwrap_or};
ghost use Rattle.e3_world.specs.declared.lives.At.{At};
ghost use Rattle.e3_world.specs.declared.lives.SiteStep.{SiteStep};
ghost use Rattle.e3_cards.specs.Cards.{blank};
ghost use Rattle.e3_cards.specs.Seeing.{seen_state};
ghost use Rattle.e3_cards.specs.Tables.{AreCountable, CardsStand};
ghost use Rattle.e3_places.specs.Standing.{fresh_of};
ghost use Rattle.e3_readings.specs.Bringing.{is_new_to, issued_before};
ghost use Rattle.e3_site.specs.past.Fresh.{is_new, fresh_as};

use e3_cards::{Card, Cards, seen_state, txn_key};
use e3_places::Standing;
use e3_readings::{brought, is_new_to};
use e3_types::{Input, State, Told};
use e3_world::{Asked, found_by_bits};
use std::alloc::Global;

// How many operations of the transaction of a Do input were issued before.
fn issued_before(alloc: Global, cards: &Cards, input: &Input) -> u64
    ensures count { (a : At) → CardsStand a.site cards.now a.life → result ≡ issued_before input.now a.life.steps }
    ensures few { AreCountable cards.now → result < 4294967295 }
{
    match input {
        Input::Do { txn, .. } => cards.issued_count(alloc, txn),
        _ => 0,
    }
}

// A transaction with no card is in q, and none of its operations came.
fn is_new_on(card: Option<&Card>, q: &Asked) -> bool
    ensures { result ≡ is_new_to (seen_state (unwrap_or (option_copied card.entry) blank).seen) (unwrap_or (option_copied card.entry) blank).came q.now }
{
    match card {
        Some(card) => is_new_to(seen_state(&card.seen), card.came.as_slice(), q),
        None => is_new_to(State::Q, &[], q),
    }
}

fn is_new(cards: &Cards, q: &Asked) -> bool
    ensures { (a : At) → CardsStand a.site cards.now a.life → result ≡ is_new a.site a.life q.now }
{
    found_by_bits(&q.txn);
    is_new_on(cards.map.get(&txn_key(&q.txn)), q)
}

fn fresh_as(alloc: Global, cards: &Cards, q: Asked) -> Option<Standing>
    ensures { (a : At) → CardsStand a.site cards.now a.life → result ≡ fresh_as a.site a.life q }
{
    if is_new(cards, &q) {
        let answered = cards.answer(alloc, &q).is_some();
        Some(Standing { asked: q, answered })
    } else {
        None
    }
}

/// The operation that a step with this input takes up, where these events were told in it, if it did not come before and its
/// transaction is in q, with whether it was answered before.
pub(crate) fn fresh(
    alloc: Global,
    cards: &Cards,
    input: &Input,
    events: &[Told],
) -> Option<Standing>
    requires { AreCountable cards.now }
    ensures { (a : At) (s : SiteStep) → CardsStand a.site cards.now a.life → s.input ≡ input.now → s.told ≡ events.now → result ≡ fresh_of a.site a.life s }
{
    let count = issued_before(alloc, cards, input);
    match brought(cards.site, count, input, events) {
        Some(q) => fresh_as(alloc, cards, q),
        None => None,
    }
}
