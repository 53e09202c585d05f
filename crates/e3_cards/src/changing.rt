// What a step makes of the cards.
ghost use Rattle.std.specs.Prelude.{◌≡◌, ◌<◌, if◌then◌else◌, ℕ, IfOk, OnOk, map, fold, suc};
ghost use Rattle.e3_types.specs.declared.transactions.Txn.{Txn as SomeTxn};
ghost use Rattle.e3_world.specs.declared.lives.Life.{Life};
ghost use Rattle.e3_world.specs.Elections.{is_elect};
ghost use Rattle.e3_world.specs.Lives.{life_by};
ghost use Rattle.e3_world.specs.Steps.{is_begin};
ghost use Rattle.e3_cards.specs.declared.keys.TxnKey.{TxnKey as KeptKey};
ghost use Rattle.e3_cards.specs.Cards.{moment_of};
ghost use Rattle.e3_world.specs.Transactions.{IsFoundByBits};
ghost use Rattle.e3_cards.specs.Tables.{card_at, call_now, txn_key, touched, change_of, put, CardsStand, AreChanges, AreCountable, HasCard, HasRoom, IsRoomier};

use crate::card::{Card, Change, blank};
use crate::cards::{Cards, Changes, put_card};
use crate::copying::copy_at;
use crate::keys::{TxnKey, txn_key};
use crate::stepping::step_card;
use crate::touched::touched;
use e3_types::{Input, List, NoMemory, Txn};
use e3_world::{SiteStep, found_by_bits};
use std::alloc::Global;
use std::collections::BTreeMap;

fn change_of(alloc: Global, cards: &Cards, step: &SiteStep, t: &Txn) -> Result<Change, NoMemory>
    requires { AreCountable cards.now }
    ensures { IfOk result (λ c. c ≡ change_of cards.now.site (call_now cards.now) cards.now.map.entries step.now t.now) }
{
    found_by_bits(t);
    let was = copy_at(alloc, &cards.map, t)?;
    let card = step_card(alloc, cards.site, cards.inc, cards.calls, t, was, step)?;
    Ok(Change { txn: *t, card })
}

fn all_changes(alloc: Global, cards: &Cards, step: &SiteStep) -> Result<List<Change>, NoMemory>
    requires { AreCountable cards.now }
    ensures { IfOk result (λ cs. cs ≡ map (change_of cards.now.site (call_now cards.now) cards.now.map.entries step.now) (touched step.now)) }
{
    let txns = touched(alloc, step)?;
    let mut out = List::new(alloc);
    for t in txns.as_slice() {
        let change = change_of(alloc, cards, step, t)?;
        out.push(change)?;
    }
    Ok(out)
}

fn begins_behind(begins: u32, step: &SiteStep) -> u32
    requires { begins < 4294967295 }
    ensures { result ≡ (if is_begin (moment_of step.now) then suc begins else begins) }
{
    match step.input {
        Input::Begin { .. } => begins + 1,
        _ => begins,
    }
}

fn calls_behind(calls: u32, step: &SiteStep) -> u32
    requires { calls < 4294967295 }
    ensures { result ≡ (if is_elect (moment_of step.now) then suc calls else calls) }
{
    match step.input {
        Input::Elect { .. } => calls + 1,
        _ => calls,
    }
}

/// What a step makes of the cards that it changes. It reads the cards alone, and changes none.
pub fn changes(alloc: Global, cards: &Cards, step: &SiteStep) -> Result<Changes, NoMemory>
    requires { AreCountable cards.now }
    ensures { IfOk result (AreChanges cards.now step.now) }
{
    Ok(Changes {
        begins: begins_behind(cards.begins, step),
        calls: calls_behind(cards.calls, step),
        cards: all_changes(alloc, cards, step)?,
    })
}

// A blank card says what no card says.
fn ready_one(alloc: Global, map: &mut BTreeMap<TxnKey, Card>, key: TxnKey) -> Result<(), NoMemory>
    ensures same { IsRoomier map.old.entries map.new.entries }
    ensures ok { OnOk result (HasCard map.new.entries key) }
{
    if map.contains_key(&key) {
        return Ok(());
    }
    put_card(map, key, blank(alloc))
}

/// Makes room for changes: behind it there is a card for each of them. No card is another, and it may be done twice.
pub fn ready(
    alloc: Global,
    map: &mut BTreeMap<TxnKey, Card>,
    changes: &[Change],
) -> Result<(), NoMemory>
    ensures same { IsRoomier map.old.entries map.new.entries }
    ensures ok { OnOk result (HasRoom map.new.entries changes.now) }
{
    match changes {
        [] => Ok(()),
        [change, rest @ ..] => {
            ready(alloc, map, rest)?;
            ready_one(alloc, map, txn_key(&change.txn))
        }
    }
}

fn put_one(map: &mut BTreeMap<TxnKey, Card>, change: Change)
    requires { HasCard map.old.entries (txn_key change.txn) }
    ensures cards { (t : SomeTxn) → IsFoundByBits t → card_at map.new.entries t ≡ put t (card_at map.old.entries t) change }
    ensures keys { (k : KeptKey) → HasCard map.old.entries k → HasCard map.new.entries k }
{
    found_by_bits(&change.txn);
    let _ = put_card(map, txn_key(&change.txn), change.card);
}

fn put_all(map: &mut BTreeMap<TxnKey, Card>, changes: List<Change>)
    requires { HasRoom map.old.entries changes }
    ensures { (t : SomeTxn) → IsFoundByBits t → card_at map.new.entries t ≡ fold (put t) (card_at map.old.entries t) changes }
{
    for change in changes.into_vec() {
        put_one(map, change);
    }
}

/// Puts the changes of a step in their places: the cards stand for the life with that step. It takes no memory.
pub fn apply(cards: &mut Cards, step: &SiteStep, changes: Changes)
    requires are { AreChanges cards.old step.now changes }
    requires room { HasRoom cards.old.map.entries changes.cards }
    ensures { (site : ℕ) → (life : Life) → CardsStand site cards.old life → CardsStand site cards.new (life_by life step.now) }
{
    let _ = step;
    cards.begins = changes.begins;
    cards.calls = changes.calls;
    put_all(&mut cards.map, changes.cards)
}
