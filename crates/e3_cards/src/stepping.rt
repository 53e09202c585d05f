// What one more step makes of a card.
ghost use Rattle.std.specs.Prelude.{◌≡◌, ◌<◌, ◌++◌, IfOk, fold, length, suc};
ghost use Rattle.std.specs.List.{flat_map};
ghost use Rattle.e3_world.specs.Operations.{issued_in, reason_in};
ghost use Rattle.e3_world.specs.Rounds.{round_by};
ghost use Rattle.e3_readings.specs.Gathering.{votes_by};
ghost use Rattle.e3_cards.specs.Arriving.{came_by, heard_in, taken_of};
ghost use Rattle.e3_cards.specs.Cards.{card_by, moment_of};
ghost use Rattle.e3_cards.specs.Electing.{election_now};
ghost use Rattle.e3_cards.specs.Issued.{counted_in, number_told};
ghost use Rattle.e3_cards.specs.Seeing.{seen_by};

use crate::arriving::{add_came, add_heard, taken_of};
use crate::card::Card;
use crate::electing::election_now;
use crate::issued::{add_counted, add_numbers};
use crate::seen::seen_behind;
use e3_readings::{Rounds, issued_in, reasons_in, votes_after};
use e3_types::{NoMemory, Txn};
use e3_world::SiteStep;
use std::alloc::Global;
use std::mem;

// The operation that a step takes up.
fn and_came(site: u32, t: &Txn, step: &SiteStep, card: &mut Card) -> Result<(), NoMemory>
    requires { length card.old.issued < 4294967295 }
    ensures { IfOk result (λ u. card.new ≡ record card.old {
      came = came_by card.old.seen card.old.came (taken_of site t.now (length card.old.issued) step.now.input step.now.told);
    }) }
{
    let seen = card.seen;
    let issued = card.issued.len();
    let taken = taken_of(site, t, issued, &step.input, step.told.as_slice());
    add_came(&seen, taken, &mut card.came)
}

// The operation that a step takes up, and the answers that it shows.
fn and_arrived(site: u32, t: &Txn, step: &SiteStep, card: &mut Card) -> Result<(), NoMemory>
    requires { length card.old.issued < 4294967295 }
    ensures { IfOk result (λ u. card.new ≡ record card.old {
      came = came_by card.old.seen card.old.came (taken_of site t.now (length card.old.issued) step.now.input step.now.told);
      heard = card.old.heard ++ heard_in t.now step.now.told step.now.outs;
    }) }
{
    and_came(site, t, step, card)?;
    add_heard(
        t,
        step.told.as_slice(),
        step.outs.as_slice(),
        &mut card.heard,
    )
}

// The operation that a step issues, the answers that it tells and that count, and the reasons that it tells.
fn and_issued(t: &Txn, step: &SiteStep, card: &mut Card) -> Result<(), NoMemory>
    ensures { IfOk result (λ u. card.new ≡ record card.old {
      issued = card.old.issued ++ issued_in t.now step.now.input step.now.told;
      answered = card.old.answered ++ flat_map (number_told t.now) step.now.told;
      counted = card.old.counted ++ counted_in t.now step.now.input step.now.told;
      reasons = card.old.reasons ++ flat_map (reason_in t.now) step.now.told;
    }) }
{
    let events = step.told.as_slice();
    issued_in(t, &step.input, events, &mut card.issued)?;
    add_numbers(t, events, &mut card.answered)?;
    add_counted(t, &step.input, events, &mut card.counted)?;
    reasons_in(t, events, &mut card.reasons)
}

// The round in progress behind a step.
fn and_rounds(site: u32, t: &Txn, step: &SiteStep, card: &mut Card)
    ensures { card.new ≡ record card.old { rounds = round_by site t.now card.old.rounds (moment_of step.now) } }
{
    let was = mem::replace(&mut card.rounds, Rounds::none());
    card.rounds = was.after(site, t, &step.input, step.records.as_slice());
}

// What the log says behind a step, and the votes, the election and the round in progress.
fn and_gathered(
    alloc: Global,
    site: u32,
    inc: u32,
    calls: u32,
    t: &Txn,
    step: &SiteStep,
    card: &mut Card,
) -> Result<(), NoMemory>
    requires { calls < 4294967295 }
    ensures { IfOk result (λ u. card.new ≡ record card.old {
      seen = fold (seen_by t.now) card.old.seen step.now.records;
      votes = votes_by site t.now card.old.votes step.now.input step.now.told;
      election = election_now site (record { inc = inc; seq = suc calls }) t.now card.old.seen card.old.election step.now;
      rounds = round_by site t.now card.old.rounds (moment_of step.now);
    }) }
{
    let seen = card.seen;
    card.votes = votes_after(site, t, card.votes, &step.input, step.told.as_slice());
    card.election = election_now(
        alloc,
        site,
        inc,
        calls,
        t,
        &seen,
        card.election.take(),
        step,
    )?;
    and_rounds(site, t, step, card);
    card.seen = seen_behind(t, seen, step.records.as_slice());
    Ok(())
}

// What a step makes of a card, in its place: what may be refused borrows the card.
fn step_on(
    alloc: Global,
    site: u32,
    inc: u32,
    calls: u32,
    t: &Txn,
    card: &mut Card,
    step: &SiteStep,
) -> Result<(), NoMemory>
    requires calls { calls < 4294967295 }
    requires issued { length card.old.issued < 4294967295 }
    ensures { IfOk result (λ u. card.new ≡ card_by site (record { inc = inc; seq = suc calls }) t.now card.old step.now) }
{
    and_arrived(site, t, step, card)?;
    and_issued(t, step, card)?;
    and_gathered(alloc, site, inc, calls, t, step, card)
}

/// What a step makes of a card, where a site of this incarnation took so many Elects before.
pub fn step_card(
    alloc: Global,
    site: u32,
    inc: u32,
    calls: u32,
    t: &Txn,
    was: Card,
    step: &SiteStep,
) -> Result<Card, NoMemory>
    requires calls { calls < 4294967295 }
    requires issued { length was.issued < 4294967295 }
    ensures { IfOk result (λ card. card ≡ card_by site (record { inc = inc; seq = suc calls }) t.now was step.now) }
{
    let mut card = was;
    match step_on(alloc, site, inc, calls, t, &mut card, step) {
        Ok(()) => Ok(card),
        Err(e) => {
            drop(card);
            Err(e)
        }
    }
}
