// The round in which an attempt gathers its acknowledgements, read off the steps of the present incarnation.
ghost use Rattle.std.specs.Prelude.{◌≡◌, [], None, fold, option_map};
ghost use Rattle.e3_world.specs.Rounds.{count_ack, receivers, round_by_record, round_by, round_in_progress};

use e3_commit::Acks;
use e3_types::{Dir, Input, Message, Record, SiteSet, Txn};
use e3_world::Moment;
use std::marker::Model;

/// The group of the last election of a transaction that began at a site, and who acknowledged the attempt in progress there.
#[derive(Drop)]
pub struct Rounds {
    group: SiteSet,
    now: Option<Acks>,
}

impl Model for Rounds {
    ghost use Rattle.e3_world.specs.Gatherings.{Rounds as Gathered};

    ghost Value = { Gathered };

    ghost view = { λ a. record { group = a.group; now = a.now } };
}

// The receivers of a round of this number: the first coordinator's other sites, or the rest of the elector's group.
fn receivers(site: u32, t: &Txn, group: SiteSet, n: u32) -> SiteSet
    ensures { result ≡ receivers site t.now group n }
{
    if n == 1 {
        t.sites.without(site)
    } else {
        group.without(site)
    }
}

// What a record makes of the round: an attempt begins one, a join or a decision ends it.
fn round_by_record(
    site: u32,
    t: &Txn,
    group: SiteSet,
    was: Option<Acks>,
    r: &Record,
) -> Option<Acks>
    ensures { result ≡ round_by_record site t.now group was r.now }
{
    match r {
        Record::Attempt { txn, n, dir } if t.is_same(txn) => {
            let to = receivers(site, t, group, *n);
            Some(Acks::awaited(*n, *dir, to))
        }
        Record::Join { txn, .. } if t.is_same(txn) => None,
        Record::Decision { txn, .. } if t.is_same(txn) => None,
        _ => was,
    }
}

// The rounds of this group behind these records.
fn rounds_with(
    site: u32,
    t: &Txn,
    group: SiteSet,
    first: Option<Acks>,
    records: &[Record],
) -> Rounds
    ensures { result ≡ record { group = group; now = fold (round_by_record site t.now group) first records.now } }
{
    let mut round = first;
    for r in records {
        round = round_by_record(site, t, group, round, r);
    }
    Rounds { group, now: round }
}

fn and_ack(was: Option<Acks>, f: u32, n: u32, dir: Dir) -> Option<Acks>
    ensures { result ≡ option_map (λ r. count_ack r f n dir) was }
{
    match was {
        Some(mut more) => {
            more.add(f, n, dir);
            Some(more)
        }
        None => None,
    }
}

impl Rounds {
    /// No round, and no election that began here.
    pub fn none() -> Rounds
        ensures { result ≡ record { group = []; now = None } }
    {
        Rounds {
            group: SiteSet::empty(),
            now: None,
        }
    }

    /// The rounds behind one more step, of which its input and its records are read. An attempt that a Pre brought begins
    /// none.
    pub fn after(self, site: u32, t: &Txn, input: &Input, records: &[Record]) -> Rounds
        ensures { result ≡ round_by site t.now self (record { before = []; input = input.now; records = records.now; outs = []; told = [] }) }
    {
        match input {
            Input::Elect { txn, group: new } => {
                let group = if t.is_same(txn) { *new } else { self.group };
                rounds_with(site, t, group, self.now, records)
            }
            Input::Deliver { packet } => match &packet.msg {
                Message::Pre { .. } => self,
                Message::Ack { txn, n, dir } if t.is_same(txn) => {
                    let acked = and_ack(self.now, packet.from, *n, *dir);
                    rounds_with(site, t, self.group, acked, records)
                }
                _ => rounds_with(site, t, self.group, self.now, records),
            },
            _ => rounds_with(site, t, self.group, self.now, records),
        }
    }

    /// The round in progress.
    pub fn in_progress(&self) -> Option<Acks>
        ensures { result ≡ self.entry.now.now }
    {
        match &self.now {
            Some(round) => Some(round.copy()),
            None => None,
        }
    }

    /// Equal rounds.
    pub fn copy(&self) -> Rounds
        ensures { result ≡ self.entry.now }
    {
        Rounds {
            group: self.group,
            now: self.in_progress(),
        }
    }
}

// The rounds behind one more step.
fn round_by(site: u32, t: &Txn, was: Rounds, m: &Moment) -> Rounds
    ensures { result ≡ round_by site t.now was m.now }
{
    was.after(site, t, &m.input, m.records.as_slice())
}

/// The round of a transaction in progress at a site.
pub fn round_in_progress(site: u32, t: &Txn, steps: &[Moment]) -> Option<Acks>
    ensures { result ≡ round_in_progress site t.now steps.now }
{
    let mut rounds = Rounds::none();
    for m in steps {
        rounds = round_by(site, t, rounds, m);
    }
    rounds.now
}
