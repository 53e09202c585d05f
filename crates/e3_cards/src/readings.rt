// What the rules of a step read of a transaction, where the cards stand for the place of the step.
ghost use Rattle.std.specs.Prelude.{◌≡◌, ◌==◌, ◌<◌, if◌then◌else◌, IfOk, length, fold, option_copied};
ghost use Rattle.std.specs.List.{list_any};
ghost use Rattle.e3_types.specs.Same.{same_txn};
ghost use Rattle.e3_world.specs.declared.lives.At.{At as Place};
ghost use Rattle.e3_world.specs.Elections.{election_in_progress, next_call};
ghost use Rattle.e3_world.specs.Making.{log_now, steps_now, own_write};
ghost use Rattle.e3_world.specs.Operations.{answers, done, expected, issued, kept_reason, same_asked, unanswered, waiting};
ghost use Rattle.e3_world.specs.Rounds.{round_in_progress};
ghost use Rattle.e3_readings.specs.Gathering.{are_complete, has_every_yes, votes_by};
ghost use Rattle.e3_readings.specs.Awaiting.{first_of, is_awaited};
ghost use Rattle.e3_readings.specs.Expecting.{own_expected};
ghost use Rattle.e3_cards.specs.Cards.{card_of, kept};
ghost use Rattle.e3_cards.specs.Readings.{expected_of, done_of};
ghost use Rattle.e3_cards.specs.Seeing.{seen_of};
ghost use Rattle.e3_cards.specs.Tables.{AreCountable, CardsStand, IsCountable, call_now};

use crate::card::Card;
use crate::cards::{Cards, card_at};
use crate::kept::{election_of, issued_of, reasons_of, round_of, seen_of, votes_of};
use crate::operations::{
    answer_of, awaits, done_of, done_with, expected_of, is_waiting_now, own_with, unanswered_now,
    waits_now,
};
use crate::seen::Seen;
use e3_commit::Acks;
use e3_elect::Election;
use e3_readings::{first_reason, have_every_yes, own_expected, votes_after};
use e3_types::{Answer, Call, Input, List, Name, NoMemory, Refusal, Txn};
use e3_world::{Asked, Expected, Made, Performed, found_by_bits};
use std::alloc::Global;

fn expected_from(
    alloc: Global,
    cards: &Cards,
    card: Option<&Card>,
    of: u32,
) -> Result<Expected, NoMemory>
    requires { IsCountable (kept (option_copied card)) }
    ensures { IfOk result (λ e. e ≡ (if cards.now.site == of then own_expected cards.now.inc (done_of (kept (option_copied card.entry))) else expected_of of (kept (option_copied card.entry)))) }
{
    if cards.site == of {
        let done = done_of(alloc, card)?;
        Ok(own_expected(cards.inc, done.as_slice()))
    } else {
        Ok(expected_of(of, card))
    }
}

fn every_yes(site: u32, t: &Txn, card: Option<&Card>, input: &Input, made: &Made) -> bool
    ensures { result ≡ are_complete (votes_by site t.now (kept (option_copied card.entry)).votes input.now made.now.told) }
{
    let votes = votes_of(card);
    have_every_yes(votes_after(site, t, votes, input, made.told.as_slice()))
}

impl Cards {
    // The card of a transaction, if it has one.
    fn card_of(&self, t: &Txn) -> Option<&Card>
        ensures card { (a : Place) → CardsStand a.site self.now a.life → kept (option_copied result) ≡ card_of a.site t.now a.life }
        ensures countable { AreCountable self.now → IsCountable (kept (option_copied result)) }
    {
        found_by_bits(t);
        card_at(&self.map, t)
    }

    /// What the log before the step says of the transaction.
    pub fn seen(&self, t: &Txn) -> Seen
        ensures { (a : Place) → CardsStand a.site self.now a.life → result ≡ seen_of t.now a.life.log }
    {
        seen_of(self.card_of(t))
    }

    /// How many operations of the transaction the steps before this one issued.
    pub fn issued_count(&self, alloc: Global, t: &Txn) -> u64
        ensures count { (a : Place) → CardsStand a.site self.now a.life → result ≡ length (issued t.now a.life.steps) }
        ensures few { AreCountable self.now → result < 4294967295 }
    {
        issued_of(self.card_of(t)).len() as u64
    }

    /// The operation of the transaction that is unanswered behind the steps before this one, if it is undecided now.
    pub fn unanswered(&self, alloc: Global, t: &Txn, made: &Made) -> Option<u32>
        requires { AreCountable self.now }
        ensures { (a : Place) → CardsStand a.site self.now a.life → result ≡ unanswered t.now (log_now a made.now) a.life.steps }
    {
        unanswered_now(t, self.card_of(t), made)
    }

    /// Operation n of the transaction is its unanswered one, with the step so far, and its key is at site f.
    pub fn is_awaited(
        &self,
        alloc: Global,
        f: u32,
        t: &Txn,
        n: u32,
        input: &Input,
        made: &Made,
    ) -> Result<bool, NoMemory>
        requires { AreCountable self.now }
        ensures { (a : Place) → CardsStand a.site self.now a.life → a.input ≡ input.now → IfOk result (λ b. b ≡ is_awaited a f t.now n made.now) }
    {
        awaits(alloc, f, t, n, self.card_of(t), input, made)
    }

    /// What is expected of a site for the transaction.
    pub fn expected(&self, alloc: Global, t: &Txn, of: u32) -> Result<Expected, NoMemory>
        requires { AreCountable self.now }
        ensures { (a : Place) → CardsStand a.site self.now a.life → IfOk result (λ e. e ≡ expected a.site a.life.inc t.now a.life.steps of) }
    {
        expected_from(alloc, self, self.card_of(t), of)
    }

    /// The reason that is kept for the end of the transaction, if there is one.
    pub fn kept_reason(&self, alloc: Global, t: &Txn) -> Option<Refusal>
        ensures { (a : Place) → CardsStand a.site self.now a.life → result ≡ first_of (kept_reason t.now a.life.steps) }
    {
        first_reason(reasons_of(self.card_of(t)))
    }

    /// The operations of the transaction that the site answered before the step, in the order of arrival.
    pub fn done(&self, alloc: Global, t: &Txn) -> Result<List<Performed>, NoMemory>
        ensures { (a : Place) → CardsStand a.site self.now a.life → IfOk result (λ out. out ≡ done a.site t.now a.life.steps) }
    {
        done_of(alloc, self.card_of(t))
    }

    /// The value that the transaction's last write of the name here gave it, with the step so far, or else this row.
    pub fn own_value(
        &self,
        alloc: Global,
        t: &Txn,
        name: &Name,
        row: Answer,
        input: &Input,
        made: &Made,
    ) -> Result<Answer, NoMemory>
        requires { AreCountable self.now }
        ensures { (a : Place) → CardsStand a.site self.now a.life → a.input ≡ input.now → IfOk result (λ x. x ≡ fold (own_write name.now) row (done a.site t.now (steps_now a made.now))) }
    {
        let card = self.card_of(t);
        own_with(alloc, self.site, t, name, row, card, input, made)
    }

    /// The first answer to this operation before the step, if it was answered.
    pub fn answer(&self, alloc: Global, q: &Asked) -> Option<Answer>
        ensures { (a : Place) → CardsStand a.site self.now a.life → result ≡ first_of (answers q.now a.life.steps) }
    {
        answer_of(self.card_of(&q.txn), q.n)
    }

    /// The operation waited before the step, and its transaction is undecided now.
    pub fn is_waiting(&self, alloc: Global, q: &Asked, made: &Made) -> bool
        ensures { (a : Place) → CardsStand a.site self.now a.life → result ≡ list_any (same_asked q.now) (waiting a.site (log_now a made.now) a.life.steps) }
    {
        is_waiting_now(q, self.card_of(&q.txn), made)
    }

    /// An operation of the transaction waited before the step, and the transaction is undecided now.
    pub fn waits(&self, alloc: Global, t: &Txn, made: &Made) -> bool
        ensures { (a : Place) → CardsStand a.site self.now a.life → result ≡ list_any (λ q. same_txn t.now q.txn) (waiting a.site (log_now a made.now) a.life.steps) }
    {
        waits_now(t, self.card_of(t), made)
    }

    /// The votes of the transaction are being gathered, and with the step so far the yes of every other site came.
    pub fn has_every_yes(&self, alloc: Global, t: &Txn, input: &Input, made: &Made) -> bool
        ensures { (a : Place) → CardsStand a.site self.now a.life → a.input ≡ input.now → result ≡ has_every_yes a t.now made.now }
    {
        every_yes(self.site, t, self.card_of(t), input, made)
    }

    /// The election of the transaction that is in progress before the step, if there is one.
    pub fn election(&self, alloc: Global, t: &Txn) -> Result<Option<Election>, NoMemory>
        ensures { (a : Place) → CardsStand a.site self.now a.life → IfOk result (λ e. e ≡ election_in_progress a.site a.life.inc t.now a.life.steps) }
    {
        election_of(alloc, self.card_of(t))
    }

    /// The round of the transaction that is in progress before the step, if there is one.
    pub fn round(&self, t: &Txn) -> Option<Acks>
        ensures { (a : Place) → CardsStand a.site self.now a.life → result ≡ round_in_progress a.site t.now a.life.steps }
    {
        round_of(self.card_of(t))
    }

    /// The call of an election that the step begins.
    pub fn next_call(&self) -> Call
        requires { AreCountable self.now }
        ensures { (a : Place) → CardsStand a.site self.now a.life → result ≡ next_call a.life.inc a.life.steps }
    {
        call_next(self)
    }
}

fn call_next(cards: &Cards) -> Call
    requires { cards.now.calls < 4294967295 }
    ensures { result ≡ call_now cards.now }
{
    Call {
        inc: cards.inc,
        seq: cards.calls + 1,
    }
}
