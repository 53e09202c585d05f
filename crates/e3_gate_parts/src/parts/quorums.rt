// Quorums, votes and acknowledgements, and elections.
//
// Lines of the input: `weights` and weights with commas between them; `shared`; `votes`, and the sites that vote; `acks SITE`,
// and acknowledgements `FROM:NUMBER:DIRECTION` of an attempt of that site; `heard GROUP`, and answers `FROM:CALL:NUMBER` that an
// elector hears; `reported GROUP`, and reports `FROM:NUMBER` to it; `copied GROUP`.
ghost use Rattle.std.specs.Prelude.{◌≡◌, IfSome};

use crate::parts::verdicts::report;
use crate::texts::{numbers_of, push_flag, push_known, set_of, small, triple};
use e3_commit::{Round, Votes};
use e3_elect::Election;
use e3_quorum::{WeightFault, Weights};
use e3_report::Page;
use e3_types::{Call, Copied, Dir, NoMemory, SiteSet, State};
use std::alloc::Global;

// Adds the number of weights, and why none are made of them, if so.
fn push_made(page: &mut Page, count: u64, made: Result<Weights, WeightFault>) {
    page.labelled("weights, ", count);
    match made {
        Ok(_) => page.text(": made"),
        Err(WeightFault::Count { count }) => page.labelled(": a count of ", count),
        Err(WeightFault::Range { site, weight }) => {
            page.labelled(": site ", u64::from(site));
            page.labelled(" weighs ", u64::from(weight));
        }
        Err(WeightFault::NoMemory) => page.lack(),
    }
    page.text("\n");
}

/// Adds what comes of weights.
pub fn push_weights(alloc: Global, page: &mut Page, text: &[u8]) {
    let weights = numbers_of(alloc, page, text);
    push_made(page, weights.len(), Weights::new(alloc, weights.as_slice()));
}

fn set(sites: &[u32]) -> Option<SiteSet>
    ensures { IfSome result (λ set. set ≡ sites.now) }
{
    SiteSet::of(sites)
}

// What sites that weigh 2, 1 and 1 weigh together, whether the first is a quorum, and which site two quorums share.
fn shared(alloc: Global) -> Option<(u64, bool, u32)> {
    let Ok(weights) = Weights::new(alloc, &[2, 1, 1]) else {
        return None;
    };
    let all = set(&[1, 2, 3])?;
    let two = set(&[1, 2])?;
    let others = set(&[1, 3])?;
    let shared = weights.shared_site(two, others, all);
    let weight = weights.weight_of(all);
    let is_quorum = weights.is_quorum(SiteSet::one(1), all);
    Some((weight, is_quorum, shared))
}

/// Adds what three sites weigh together, whether the first is a quorum, and which site two quorums share.
pub fn push_shared(alloc: Global, page: &mut Page) {
    match shared(alloc) {
        Some((weight, is_quorum, shared)) => {
            page.labelled("weight ", weight);
            push_flag(page, is_quorum);
            page.labelled(" ", u64::from(shared));
            page.text("\n");
        }
        None => page.lack(),
    }
}

/// Adds the votes of a commit of three sites, each behind the one before.
pub fn push_votes(page: &mut Page, pieces: &[&[u8]]) {
    let mut votes = Votes::start(SiteSet::one(1).with(2).with(3), 1);
    page.text("all said yes:");
    for piece in pieces {
        push_flag(page, votes.yes(small(piece)));
    }
    page.text("\n");
}

/// Adds how many sites attempted behind each of these acknowledgements of an attempt by this site, the first and to commit, and
/// in which order they came.
pub fn push_acks(page: &mut Page, site: u32, pieces: &[&[u8]]) {
    let mut round = Round::attempt(1, Dir::Commit, SiteSet::one(2).with(3), site);
    page.text("acknowledged by:");
    for piece in pieces {
        let (from, n, _) = triple(piece);
        let is_abort = piece.ends_with(b":abort");
        let dir = if is_abort { Dir::Abort } else { Dir::Commit };
        page.labelled(" ", u64::from(round.ack(from, n, dir).count()));
    }
    page.text("; in order:");
    for from in round.acks().copy().arrivals() {
        page.labelled(" ", u64::from(*from));
    }
    page.text("\n");
}

// The call of an election of site 2.
const CALL: Call = Call { inc: 1, seq: 1 };

// Adds what an election hears, and which number it comes to.
fn push_heard(page: &mut Page, election: &mut Election, pieces: &[&[u8]]) {
    page.text("elected:");
    push_known(page, election.number());
    for piece in pieces {
        let (from, seq, elected) = triple(piece);
        push_flag(page, election.heard(from, Call { inc: 1, seq }, elected));
        push_known(page, election.number());
    }
    page.text("\n");
}

// Adds whether the whole group has reported, then of each report whether it is taken and whether all have reported with it, and how
// many have at the end.
fn push_taken(page: &mut Page, election: &mut Election, pieces: &[&[u8]]) {
    page.text("reported:");
    push_flag(page, election.complete());
    for piece in pieces {
        let (from, n, _) = triple(piece);
        push_flag(page, election.reported(n, report(from, State::Pc, 1)));
        push_flag(page, election.complete());
    }
    page.labelled("; of ", election.group().count() as u64);
    page.labelled(" sites ", election.reports().len() as u64);
    page.text("\n");
}

// Adds what an election takes of these reports, each by its site and under its number, once it heard site 3 and joined.
fn push_reported(page: &mut Page, election: &mut Election, pieces: &[&[u8]]) {
    election.heard(3, CALL, 6);
    if election.number().is_some() {
        election.joined(report(2, State::W, 0));
        push_taken(page, election, pieces);
    }
}

// Adds what a copy of an election takes, which joined number 9, and what was reported to the election meanwhile.
fn push_copied(alloc: Global, page: &mut Page, election: &mut Election) {
    election.joined_under(9, report(2, State::W, 0));
    match election.copied(alloc) {
        Ok(mut copy) => {
            page.text("joined:");
            push_known(page, copy.joined_number());
            push_flag(page, copy.reported(9, report(3, State::Pc, 1)));
            page.labelled("; reports ", copy.reports().len() as u64);
            page.labelled(" and ", election.reports().len() as u64);
            page.text("\n");
            drop(copy);
        }
        Err(NoMemory) => page.lack(),
    }
}

/// Adds what comes of an election of site 2 in this group, whose own number is 4, by the letter of the case.
pub fn push_elected(alloc: Global, page: &mut Page, letter: u8, group: &[u8], pieces: &[&[u8]]) {
    let group = set_of(alloc, page, group);
    match Election::start(alloc, CALL, group, 2, 4) {
        Ok(mut election) => {
            match letter {
                b'h' => push_heard(page, &mut election, pieces),
                b'r' => push_reported(page, &mut election, pieces),
                _ => push_copied(alloc, page, &mut election),
            }
            drop(election);
        }
        Err(NoMemory) => page.lack(),
    }
}
