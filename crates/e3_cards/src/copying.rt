// Copies of cards.
ghost use Rattle.std.specs.Prelude.{◌≡◌, ◌++◌, IfOk};
ghost use Rattle.e3_cards.specs.Cards.{blank};
ghost use Rattle.e3_cards.specs.Tables.{card_at};

use crate::card::{Card, Heard, blank};
use crate::keys::{TxnKey, txn_key};
use e3_elect::Election;
use e3_readings::add_asked;
use e3_types::{Copied, List, NoMemory, Op, Txn};
use std::alloc::Global;
use std::collections::BTreeMap;

/// Adds copies of these operations.
pub(crate) fn add_ops(ops: &[Op], out: &mut List<Op>) -> Result<(), NoMemory>
    ensures { IfOk result (λ u. out.new ≡ out.old ++ ops.now) }
{
    for x in ops {
        out.push(x.copy())?;
    }
    Ok(())
}

/// Adds copies of these answers.
pub(crate) fn add_all_heard(heard: &[Heard], out: &mut List<Heard>) -> Result<(), NoMemory>
    ensures { IfOk result (λ u. out.new ≡ out.old ++ heard.now) }
{
    for x in heard {
        out.push(Heard {
            n: x.n,
            answer: x.answer.copy(),
        })?;
    }
    Ok(())
}

/// A copy of the election in progress.
pub(crate) fn copy_election(
    alloc: Global,
    was: &Option<Election>,
) -> Result<Option<Election>, NoMemory>
    ensures { IfOk result (λ out. out ≡ was.now) }
{
    match was {
        Some(e) => Ok(Some(e.copied(alloc)?)),
        None => Ok(None),
    }
}

// Adds copies of what is kept of a transaction at its coordinator.
fn add_issued(card: &Card, out: &mut Card) -> Result<(), NoMemory>
    ensures { IfOk result (λ u. out.new ≡ record out.old {
      issued = out.old.issued ++ card.now.issued;
      answered = out.old.answered ++ card.now.answered;
      counted = out.old.counted ++ card.now.counted;
      reasons = out.old.reasons ++ card.now.reasons;
    }) }
{
    add_ops(card.issued.as_slice(), &mut out.issued)?;
    out.answered.extend(card.answered.as_slice())?;
    out.counted.extend(card.counted.as_slice())?;
    out.reasons.extend(card.reasons.as_slice())
}

// Adds copies of the operations that came, and of their answers.
fn add_arrived(card: &Card, out: &mut Card) -> Result<(), NoMemory>
    ensures { IfOk result (λ u. out.new ≡ record out.old {
      came = out.old.came ++ card.now.came;
      heard = out.old.heard ++ card.now.heard;
    }) }
{
    add_asked(card.came.as_slice(), &mut out.came)?;
    add_all_heard(card.heard.as_slice(), &mut out.heard)
}

// A blank card becomes a copy of this one.
fn fill_card(alloc: Global, card: &Card, out: &mut Card) -> Result<(), NoMemory>
    requires { out.old ≡ blank }
    ensures { IfOk result (λ u. out.new ≡ card.now) }
{
    add_issued(card, out)?;
    add_arrived(card, out)?;
    out.election = copy_election(alloc, &card.election)?;
    out.seen = card.seen;
    out.votes = card.votes;
    out.rounds = card.rounds.copy();
    Ok(())
}

// A blank card becomes a copy of the transaction's: what may be refused borrows it.
fn fill_at(
    alloc: Global,
    map: &BTreeMap<TxnKey, Card>,
    t: &Txn,
    out: &mut Card,
) -> Result<(), NoMemory>
    requires { out.old ≡ blank }
    ensures { IfOk result (λ u. out.new ≡ card_at map.now.entries t.now) }
{
    match map.get(&txn_key(t)) {
        Some(card) => fill_card(alloc, card, out),
        None => Ok(()),
    }
}

/// A copy of the card of a transaction, or a blank one.
pub fn copy_at(alloc: Global, map: &BTreeMap<TxnKey, Card>, t: &Txn) -> Result<Card, NoMemory>
    ensures { IfOk result (λ card. card ≡ card_at map.now.entries t.now) }
{
    let mut out = blank(alloc);
    match fill_at(alloc, map, t, &mut out) {
        Ok(()) => Ok(out),
        Err(e) => {
            drop(out);
            Err(e)
        }
    }
}
