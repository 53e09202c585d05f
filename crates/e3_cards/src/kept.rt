// What is kept of a transaction, which may have no card: then what the blank card has. It owns nothing, so that a reading has
// nothing to give back.
ghost use Rattle.std.specs.Prelude.{◌≡◌, IfOk, option_copied};
ghost use Rattle.e3_cards.specs.Cards.{kept};

use crate::card::{Card, Counted, Heard};
use crate::copying::copy_election;
use crate::seen::{Seen, unseen};
use e3_commit::{Acks, Votes};
use e3_elect::Election;
use e3_types::{NoMemory, Op, Refusal};
use e3_world::Asked;
use std::alloc::Global;

/// What the log says.
pub(crate) fn seen_of(card: Option<&Card>) -> Seen
    ensures { result ≡ (kept (option_copied card.entry)).seen }
{
    match card {
        Some(card) => card.seen,
        None => unseen(),
    }
}

/// The operations issued.
pub(crate) fn issued_of(card: Option<&Card>) -> &[Op]
    ensures { result.now ≡ (kept (option_copied card.entry)).issued }
{
    match card {
        Some(card) => card.issued.as_slice(),
        None => &[],
    }
}

/// The numbers of the operations whose answers were told.
pub(crate) fn answered_of(card: Option<&Card>) -> &[u32]
    ensures { result.now ≡ (kept (option_copied card.entry)).answered }
{
    match card {
        Some(card) => card.answered.as_slice(),
        None => &[],
    }
}

/// The answers of other sites that count.
pub(crate) fn counted_of(card: Option<&Card>) -> &[Counted]
    ensures { result.now ≡ (kept (option_copied card.entry)).counted }
{
    match card {
        Some(card) => card.counted.as_slice(),
        None => &[],
    }
}

/// The reasons told in place of an end.
pub(crate) fn reasons_of(card: Option<&Card>) -> &[Refusal]
    ensures { result.now ≡ (kept (option_copied card.entry)).reasons }
{
    match card {
        Some(card) => card.reasons.as_slice(),
        None => &[],
    }
}

/// The operations that came.
pub(crate) fn came_of(card: Option<&Card>) -> &[Asked]
    ensures { result.now ≡ (kept (option_copied card.entry)).came }
{
    match card {
        Some(card) => card.came.as_slice(),
        None => &[],
    }
}

/// The answers that were told or sent.
pub(crate) fn heard_of(card: Option<&Card>) -> &[Heard]
    ensures { result.now ≡ (kept (option_copied card.entry)).heard }
{
    match card {
        Some(card) => card.heard.as_slice(),
        None => &[],
    }
}

/// The votes that are gathered.
pub(crate) fn votes_of(card: Option<&Card>) -> Option<Votes>
    ensures { result ≡ (kept (option_copied card.entry)).votes }
{
    match card {
        Some(card) => card.votes,
        None => None,
    }
}

/// A copy of the election in progress.
pub(crate) fn election_of(alloc: Global, card: Option<&Card>) -> Result<Option<Election>, NoMemory>
    ensures { IfOk result (λ e. e ≡ (kept (option_copied card.entry)).election) }
{
    match card {
        Some(card) => copy_election(alloc, &card.election),
        None => Ok(None),
    }
}

/// The round in progress.
pub(crate) fn round_of(card: Option<&Card>) -> Option<Acks>
    ensures { result ≡ (kept (option_copied card.entry)).rounds.now }
{
    match card {
        Some(card) => card.rounds.in_progress(),
        None => None,
    }
}
