// All that is kept of a transaction.
ghost use Rattle.std.specs.Prelude.{◌≡◌};
ghost use Rattle.e3_cards.specs.Cards.{blank};

use crate::seen::{Seen, unseen};
use e3_commit::Votes;
use e3_elect::Election;
use e3_readings::Rounds;
use e3_types::{Answer, List, Op, Refusal, Txn};
use e3_world::Asked;
use std::alloc::Global;

/// An answer to the operation of this number.
#[derive(Drop)]
pub struct Heard {
    pub n: u32,
    pub answer: Answer,
}

/// An answer of another site that counts, under the incarnation that it came with.
#[derive(Clone, Copy)]
pub struct Counted {
    pub site: u32,
    pub inc: u32,
}

/// All that is kept of a transaction. Of the log: `seen`. At its coordinator: the operations issued, the numbers of those
/// whose answers were told, the answers of other sites that count, the reasons told in place of an end, and the votes that
/// are gathered. At any site: the operations that came while it was in q, in the order of arrival, the answers that were told
/// or sent, the election in progress, and the last group with the round in progress.
#[derive(Drop)]
pub struct Card {
    pub seen: Seen,
    pub issued: List<Op>,
    pub answered: List<u32>,
    pub counted: List<Counted>,
    pub reasons: List<Refusal>,
    pub came: List<Asked>,
    pub heard: List<Heard>,
    pub votes: Option<Votes>,
    pub election: Option<Election>,
    pub rounds: Rounds,
}

/// The card that a step makes of a transaction's.
#[derive(Drop)]
pub struct Change {
    pub txn: Txn,
    pub card: Card,
}

/// The card of a transaction of which nothing is known. It takes no memory.
pub(crate) fn blank(alloc: Global) -> Card
    ensures { result ≡ blank }
{
    Card {
        seen: unseen(),
        issued: List::new(alloc),
        answered: List::new(alloc),
        counted: List::new(alloc),
        reasons: List::new(alloc),
        came: List::new(alloc),
        heard: List::new(alloc),
        votes: None,
        election: None,
        rounds: Rounds::none(),
    }
}
