// What the test of a log reads of the records before another one: off the records themselves, or off tables of them.
ghost use Rattle.std.specs.Prelude.{◌≡◌, ◌==◌, List, length};
ghost use Rattle.std.specs.List.{list_any};
ghost use Rattle.e3_types.specs.declared.records.Record.{Record as SomeRecord};
ghost use Rattle.e3_types.specs.Locks.{opposes};
ghost use Rattle.e3_world.specs.declared.lives.Life.{Life};
ghost use Rattle.e3_world.specs.Logs.{logged_inc};
ghost use Rattle.e3_world.specs.Orderly.{is_free, weights_in};
ghost use Rattle.e3_cards.specs.Seeing.{seen_of};
ghost use Rattle.e3_places.specs.Keeping.{PlacesStand, place_at};
ghost use Rattle.e3_readings.specs.Requests.{lock_for};

use crate::headings::weights_in;
use crate::locks::is_free_among;
use crate::past::Logged;
use e3_cards::Seen;
use e3_places::{Place, Places};
use e3_readings::{
    attempted, decision, has_voted, key_of, last_attempt, last_elected, lock_for, logged_inc,
    mode_of,
};
use e3_types::{Lock, Name, NumOp, Record, Txn};
use e3_world::Asked;
use std::collections::BTreeMap;
use std::marker::Model;

/// What the test of a log reads of the records before another one, which `log` names. None of it takes memory.
pub(crate) trait Before {
    /// The records.
    ghost log: { Self → List SomeRecord };

    /// There is no record.
    fn is_empty(&self) -> bool
        ensures { result ≡ (length (log self.now) == 0) };

    /// The incarnation of the last Inc, 0 where there is none.
    fn inc(&self) -> u32
        ensures { result ≡ logged_inc (log self.now) };

    /// The weights of all sites by the birth, none where there is no birth.
    fn weights(&self) -> &[u32]
        ensures { result.now ≡ weights_in (log self.now) };

    /// What the records say of the transaction.
    fn seen(&self, t: &Txn) -> Seen
        ensures { result ≡ seen_of t.now (log self.now) };

    /// The lock of the operation conflicts with none of the votes of other transactions that are undecided.
    fn is_free(&self, t: &Txn, o: &NumOp) -> bool
        ensures { result ≡ is_free t.now (log self.now) o.now };
}

/// The records themselves. Each reading goes over all of them, and that of a lock over their pairs.
#[derive(Drop)]
pub(crate) struct Plain<'a> {
    pub records: &'a [Record],
}

impl<'a> Before for Plain<'a> {
    ghost log = { λ b. b.records.now };

    fn is_empty(&self) -> bool {
        self.records.is_empty()
    }

    fn inc(&self) -> u32 {
        logged_inc(self.records)
    }

    fn weights(&self) -> &[u32] {
        weights_in(self.records)
    }

    fn seen(&self, t: &Txn) -> Seen {
        Seen {
            elected: last_elected(t, self.records),
            attempt: last_attempt(t, self.records),
            decision: decision(t, self.records),
            attempted: attempted(t, self.records),
            voted: has_voted(t, self.records),
        }
    }

    fn is_free(&self, t: &Txn, o: &NumOp) -> bool {
        is_free_among(t, self.records, o)
    }
}

/// Tables of the records, with the incarnation of the last Inc and the weights by the birth. A reading costs what is known of
/// its transaction or name. There are tables of names, since each record may be read behind those before it.
#[derive(Drop)]
pub(crate) struct Tabled<'a> {
    pub site: u32,
    pub rising: u32,
    pub records: &'a [Record],
    pub read: &'a Logged,
    pub inc: u32,
    pub weights: &'a [u32],
}

impl<'a> Model for Tabled<'a> {
    ghost use Rattle.std.specs.Prelude.{List};
    ghost use Rattle.e3_types.specs.declared.records.Record.{Record as SomeRecord};
    ghost use Rattle.e3_site.specs.Reading.{AreRead};

    ghost Value = { List SomeRecord };

    ghost view = { λ b. b.records.now };

    ghost invariant = { λ b. AreRead b.site b.rising b.records.now b.read.now b.inc b.weights.now };
}

fn opposes_lock(wanted: &Lock, a: &Asked) -> bool
    ensures { result ≡ opposes wanted.now (lock_for a.now) }
{
    wanted.opposes(&lock_for(a))
}

// A lock of a vote on the name conflicts with the wanted one.
fn is_opposed(names: &BTreeMap<Name, Place>, name: &Name, wanted: &Lock) -> bool
    ensures { result ≡ list_any (λ a. opposes wanted.now (lock_for a)) (place_at names.now.entries name.now).claims.votes }
{
    match names.get(name) {
        Some(place) => place
            .claims
            .votes
            .as_slice()
            .iter()
            .any(|a| opposes_lock(wanted, a)),
        None => false,
    }
}

fn is_free_on(places: &Places, t: &Txn, o: &NumOp) -> bool
    ensures { (site : _) (life : Life) → PlacesStand site places.now life → result ≡ is_free t.now life.log o.now }
{
    let wanted = Lock {
        txn: *t,
        mode: mode_of(&o.op),
    };
    !is_opposed(&places.names, &key_of(&o.op).name, &wanted)
}

impl<'a> Before for Tabled<'a> {
    ghost log = { λ b. b };

    fn is_empty(&self) -> bool {
        self.records.is_empty()
    }

    fn inc(&self) -> u32 {
        self.inc
    }

    fn weights(&self) -> &[u32] {
        self.weights
    }

    fn seen(&self, t: &Txn) -> Seen {
        let read = self.read;
        read.cards.seen(t)
    }

    fn is_free(&self, t: &Txn, o: &NumOp) -> bool {
        let read = self.read;
        match &read.places {
            Some(places) => is_free_on(places, t, o),
            None => unreachable!(),
        }
    }
}
