//! Entries of a site stay legal behind entries of other sites; and what is under way comes to an end, by a measure that falls
//! with each packet that is taken.
ghost use Rattle.e3_laws.specs.local.Claims.{DraftsAreAllowed, DraftsStay, DueMayBeTaken, FirstAreWaiting, FirstIsLeast, FrontIsLeast, ItemsStay, LeastIsPending, LeastStays, Local, LocalKeepsLegal, NextItem, QueueGoesOn, QueueStays, ReadingsStay};
ghost use Rattle.e3_laws.specs.local.Longer.{LegalForLonger};
ghost use Rattle.e3_laws.specs.local.Settling.{AnswersEndOrDoom, DeliveriesBeginNothing, EntriesAreCounted, PacketsEnd, PacketsSettle, TakingLowers};

use crate::steps::packets_fall_in_rank;

/// An entry of a site that is allowed behind a history is allowed, but for the numbers of its packets, behind further
/// entries of other sites, while the packets that it takes are pending.
pub fn entries_are_local()
    ensures local { Local }
    ensures legal { LocalKeepsLegal }
{}

/// What a site may enter, it may enter behind further entries of other sites. Pending packets are asked for only where it
/// is entered.
pub fn drafts_stay()
    ensures stay { DraftsStay }
    ensures allowed { DraftsAreAllowed }
{}

/// What a worker knows of its site stays true behind entries of other sites: what the site reads of its own, and how far it
/// is with its items. Its next item is due.
pub fn workers_know_their_site()
    ensures readings { ReadingsStay }
    ensures items { ItemsStay }
    ensures next { NextItem }
    ensures due { DueMayBeTaken }
{}

/// The least packet to a site stays the least while other sites go on, and it is pending. The first of all pending packets
/// is the least to its receiver.
pub fn least_packets_stay()
    ensures stay { LeastStays }
    ensures pending { LeastIsPending }
    ensures first { FirstIsLeast }
{}

/// The packets to a site, each as often as it has copies left. Behind entries of other sites they are those of before, and
/// then others; the first is the least, and behind the step that takes it the others are the first. So the first few are
/// pending, each behind the steps that those before it would make.
pub fn first_packets_stay()
    ensures stay { QueueStays }
    ensures least { FrontIsLeast }
    ensures goes_on { QueueGoesOn }
    ensures waiting { FirstAreWaiting }
{}

/// A legal history is legal for every scenario with the same keys whose steps begin with those of its lines: what comes
/// later in the scenario has no say in it.
pub fn histories_serve_longer_scenarios()
    ensures { LegalForLonger }
{}

/// A packet that is taken makes only packets of lower rank, or is an answer that dooms its transaction: that was
/// undecided at the site, its coordinator, and is aborted in the step, which sends only decisions and answers.
pub fn packets_settle()
    ensures answers { AnswersEndOrDoom }
    ensures packets { PacketsSettle }
{
    packets_fall_in_rank();
}

/// Each entry that takes a packet, a delivery, a fall with one among its inputs or a drop, lowers the measure of the
/// history, and begins no transaction.
pub fn taking_lowers_the_measure()
    ensures begins { DeliveriesBeginNothing }
    ensures lowers { TakingLowers }
{
    packets_settle();
}

/// From each legal history on, packets come to an end, in whatever order sites take them.
pub fn packets_come_to_an_end()
    ensures { PacketsEnd }
{
    taking_lowers_the_measure();
}

/// So there is a number of entries that a driver does not pass which takes packets in the order of their numbers.
pub fn packets_are_counted()
    ensures { EntriesAreCounted }
{
    taking_lowers_the_measure();
}
