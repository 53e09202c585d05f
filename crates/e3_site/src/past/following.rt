// Whether a record may follow a log, by the cards.
ghost use Rattle.std.specs.Prelude.{◌≡◌};
ghost use Rattle.e3_world.specs.declared.lives.At.{At};
ghost use Rattle.e3_world.specs.Logs.{is_undecided};
ghost use Rattle.e3_cards.specs.Tables.{CardsStand};
ghost use Rattle.e3_places.specs.Standing.{may_follow};

use e3_cards::Cards;
use e3_types::{Record, Txn};

fn is_open(cards: &Cards, t: &Txn) -> bool
    ensures { (a : At) → CardsStand a.site cards.now a.life → result ≡ is_undecided t.now a.life.log }
{
    cards.seen(t).decision.is_none()
}

/// The record may follow the log: it is no birth, and neither votes for nor decides a transaction that the log decides.
pub(crate) fn may_follow(cards: &Cards, r: &Record) -> bool
    ensures { (a : At) → CardsStand a.site cards.now a.life → result ≡ may_follow a.life.log r.now }
{
    match r {
        Record::Birth { .. } => false,
        Record::Vote { txn, .. } => is_open(cards, txn),
        Record::Decision { txn, .. } => is_open(cards, txn),
        _ => true,
    }
}
