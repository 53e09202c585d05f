// What one more record of a log makes of the cards, at a site that made no step: its transaction's is changed in its place.
ghost use Rattle.std.specs.Prelude.{◌≡◌, ◌++◌, ◌∷◌, [], if◌then◌else◌, ℕ, true, false, List as Items, OnOk};
ghost use Rattle.e3_types.specs.declared.records.Record.{Record as SomeRecord};
ghost use Rattle.e3_types.specs.declared.transactions.Txn.{Txn as SomeTxn};
ghost use Rattle.e3_types.specs.Same.{same_txn};
ghost use Rattle.e3_world.specs.Items.{txn_of_record};
ghost use Rattle.e3_cards.specs.Cards.{blank};
ghost use Rattle.e3_cards.specs.Noting.{noted, unstepped};
ghost use Rattle.e3_world.specs.Transactions.{IsFoundByBits};
ghost use Rattle.e3_cards.specs.Tables.{card_at, CardsStand};

use crate::card::{Card, blank};
use crate::cards::{Cards, put_card};
use crate::keys::{TxnKey, txn_key};
use crate::seen::seen_by;
use e3_readings::txn_of_record;
use e3_types::{NoMemory, Record, Txn};
use e3_world::found_by_bits;
use std::alloc::Global;
use std::collections::BTreeMap;

// Changes the card of a transaction in its place, where it has one.
fn note_at(kept: &mut BTreeMap<TxnKey, Card>, t: &Txn, r: &Record) -> bool
    ensures noted { result ≡ true → (u : SomeTxn) → IsFoundByBits u → card_at kept.new.entries u
        ≡ (if same_txn t.now u then noted t.now r.now (card_at kept.old.entries t.now) else card_at kept.old.entries u) }
    ensures none { result ≡ false → card_at kept.old.entries t.now ≡ blank }
    ensures same { result ≡ false → kept.new.entries ≡ kept.old.entries }
{
    found_by_bits(t);
    match kept.get_mut(&txn_key(t)) {
        Some(card) => {
            card.seen = seen_by(t, card.seen, r);
            true
        }
        None => false,
    }
}

// The card of a transaction is this one from now on.
fn put_card_of(kept: &mut BTreeMap<TxnKey, Card>, t: &Txn, card: Card) -> Result<(), NoMemory>
    ensures { OnOk result ((u : SomeTxn) → IsFoundByBits u → card_at kept.new.entries u ≡ (if same_txn t.now u then card else card_at kept.old.entries u)) }
{
    found_by_bits(t);
    put_card(kept, txn_key(t), card)
}

fn noted(was: Card, t: &Txn, r: &Record) -> Card
    ensures { result ≡ noted t.now r.now was }
{
    let mut card = was;
    card.seen = seen_by(t, card.seen, r);
    card
}

fn note_in(
    alloc: Global,
    kept: &mut BTreeMap<TxnKey, Card>,
    t: &Txn,
    r: &Record,
) -> Result<(), NoMemory>
    ensures { OnOk result ((u : SomeTxn) → IsFoundByBits u → card_at kept.new.entries u
        ≡ (if same_txn t.now u then noted t.now r.now (card_at kept.old.entries t.now) else card_at kept.old.entries u)) }
{
    if note_at(kept, t, r) {
        return Ok(());
    }
    put_card_of(kept, t, noted(blank(alloc), t, r))
}

fn note_of(alloc: Global, cards: &mut Cards, t: &Txn, r: &Record) -> Result<(), NoMemory>
    requires { txn_of_record r.now ≡ t.now ∷ [] }
    ensures { OnOk result ((site inc : ℕ) → (log : Items SomeRecord) → CardsStand site cards.old (unstepped inc log) → CardsStand site cards.new (unstepped inc (log ++ r.now ∷ []))) }
{
    note_in(alloc, &mut cards.map, t, r)
}

// A record of no transaction changes no card.
fn pass(_cards: &Cards, _r: &Record)
    requires { txn_of_record _r.now ≡ [] }
    ensures { (site inc : ℕ) → (log : Items SomeRecord) → CardsStand site _cards.now (unstepped inc log) → CardsStand site _cards.now (unstepped inc (log ++ _r.now ∷ [])) }
{}

/// The cards of a log with one more record, at a site that made no step. It costs what is known of the record's transaction.
/// Want of memory is the only error; what the cards are then is left open.
pub fn note(alloc: Global, cards: &mut Cards, r: &Record) -> Result<(), NoMemory>
    ensures { OnOk result ((site inc : ℕ) → (log : Items SomeRecord) → CardsStand site cards.old (unstepped inc log) → CardsStand site cards.new (unstepped inc (log ++ r.now ∷ []))) }
{
    match txn_of_record(r) {
        Some(t) => note_of(alloc, cards, t, r),
        None => {
            pass(cards, r);
            Ok(())
        }
    }
}
