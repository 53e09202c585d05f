// A past that is read anew each time.
ghost use Rattle.std.specs.Prelude.{◌≡◌, ◌<◌, ◌≤◌, ◌&&◌, IfOk, length};
ghost use Rattle.e3_readings.specs.Awaiting.{is_at_site, is_number};
ghost use Rattle.e3_world.specs.Operations.{issued, nth_op, unanswered};

use crate::Past;
use crate::plain::grants::grants_after;
use crate::plain::reading::{
    begins, first_answer, lock_now, log_now, steps_now, waits_for, waits_now,
};
use e3_commit::Acks;
use e3_elect::Election;
use e3_readings::{
    answers, attempted, decision, done, election_in_progress, expected, first_reason, has_voted,
    have_every_yes, is_among, issued, kept_reason, key_of, last_attempt, last_elected, last_own,
    next_call, nth_op, round_in_progress, row_value, table_of, unanswered, votes_in,
};
use e3_types::{Answer, Call, Dir, Grant, Input, List, Name, NoMemory, Record, Refusal, Txn};
use e3_world::{Asked, At, Expected, Made, Moment, Performed};
use std::alloc::Global;
use std::marker::Model;

/// A place where a step is made, with its past read anew each time, and the allocator for that. The incarnation made fewer
/// steps than 32 bits count.
#[derive(Drop)]
pub struct Anew {
    alloc: Global,
    place: At,
}

impl Model for Anew {
    ghost use Rattle.std.specs.Prelude.{◌<◌, length};
    ghost use Rattle.e3_world.specs.declared.lives.At.{At};

    ghost Value = { At };

    ghost view = { λ p. p.place };

    ghost invariant = { λ p. length p.place.life.steps < 4294967295 };
}

impl Anew {
    /// The place with what is read of its past.
    pub fn new(alloc: Global, place: At) -> Anew
        requires { length place.life.steps < 4294967295 }
        ensures { result ≡ place }
    {
        Anew { alloc, place }
    }
}

// Operation n is the unanswered one by this log and these steps, and its key is at site f.
fn awaits(
    alloc: Global,
    f: u32,
    t: &Txn,
    n: u32,
    log: &[Record],
    steps: &[Moment],
) -> Result<bool, NoMemory>
    requires { length steps.now ≤ 4294967295 }
    ensures { IfOk result (λ b. b ≡ (is_number n (unanswered t.now log.now steps.now) && is_at_site f (nth_op n (issued t.now steps.now)))) }
{
    let ops = issued(alloc, t, steps)?;
    match (unanswered(alloc, t, log, steps)?, nth_op(n, ops.as_slice())) {
        (Some(m), Some(op)) => Ok(n == m && key_of(op).site == f),
        _ => Ok(false),
    }
}

impl Past for Anew {
    ghost at = { λ p. p };

    fn alloc(&self) -> Global {
        self.alloc
    }

    fn weights(&self) -> &[u32] {
        self.place.weights.as_slice()
    }

    fn site(&self) -> u32 {
        self.place.site
    }

    fn inc(&self) -> u32 {
        self.place.life.inc
    }

    fn input(&self) -> &Input {
        &self.place.input
    }

    fn elected(&self, t: &Txn) -> u32 {
        last_elected(t, self.place.life.log.as_slice())
    }

    fn attempt(&self, t: &Txn) -> u32 {
        last_attempt(t, self.place.life.log.as_slice())
    }

    fn decision(&self, t: &Txn) -> Option<Dir> {
        decision(t, self.place.life.log.as_slice())
    }

    fn attempted(&self, t: &Txn) -> Option<Dir> {
        attempted(t, self.place.life.log.as_slice())
    }

    fn voted(&self, t: &Txn) -> bool {
        has_voted(t, self.place.life.log.as_slice())
    }

    fn issued_count(&self, t: &Txn) -> Result<u64, NoMemory> {
        let ops = issued(self.alloc, t, self.place.life.steps.as_slice())?;
        Ok(ops.len())
    }

    fn unanswered(&self, t: &Txn, made: &Made) -> Result<Option<u32>, NoMemory> {
        let log = log_now(self.alloc, &self.place, made)?;
        unanswered(
            self.alloc,
            t,
            log.as_slice(),
            self.place.life.steps.as_slice(),
        )
    }

    fn is_awaited(&self, f: u32, t: &Txn, n: u32, made: &Made) -> Result<bool, NoMemory> {
        let log = log_now(self.alloc, &self.place, made)?;
        let steps = steps_now(self.alloc, &self.place, made)?;
        awaits(self.alloc, f, t, n, log.as_slice(), steps.as_slice())
    }

    fn expected(&self, t: &Txn, of: u32) -> Result<Expected, NoMemory> {
        let a = &self.place;
        expected(
            self.alloc,
            a.site,
            a.life.inc,
            t,
            a.life.steps.as_slice(),
            of,
        )
    }

    fn kept_reason(&self, t: &Txn) -> Result<Option<Refusal>, NoMemory> {
        let reasons = kept_reason(self.alloc, t, self.place.life.steps.as_slice())?;
        Ok(first_reason(reasons.as_slice()))
    }

    fn done(&self, t: &Txn) -> Result<List<Performed>, NoMemory> {
        done(
            self.alloc,
            self.place.site,
            t,
            self.place.life.steps.as_slice(),
        )
    }

    fn value(&self, t: &Txn, name: &Name, made: &Made) -> Result<Answer, NoMemory> {
        let log = log_now(self.alloc, &self.place, made)?;
        let rows = table_of(self.alloc, log.as_slice())?;
        let steps = steps_now(self.alloc, &self.place, made)?;
        let performed = done(self.alloc, self.place.site, t, steps.as_slice())?;
        Ok(last_own(name, row_value(name, rows.as_slice()), performed.as_slice()))
    }

    fn answer(&self, q: &Asked) -> Result<Option<Answer>, NoMemory> {
        let found = answers(self.alloc, q, self.place.life.steps.as_slice())?;
        Ok(first_answer(found.as_slice()))
    }

    fn is_waiting(&self, q: &Asked, made: &Made) -> Result<bool, NoMemory> {
        let waits = waits_now(self.alloc, &self.place, made)?;
        Ok(is_among(q, waits.as_slice()))
    }

    fn waits(&self, t: &Txn, made: &Made) -> Result<bool, NoMemory> {
        let waits = waits_now(self.alloc, &self.place, made)?;
        Ok(waits_for(t, waits.as_slice()))
    }

    fn lock(&self, q: &Asked, made: &Made) -> Result<Grant, NoMemory> {
        lock_now(self.alloc, &self.place, q, made)
    }

    fn grants_after(&self, made: &Made) -> Result<List<Asked>, NoMemory> {
        grants_after(self.alloc, &self.place, made)
    }

    fn has_every_yes(&self, t: &Txn, made: &Made) -> Result<bool, NoMemory> {
        let steps = steps_now(self.alloc, &self.place, made)?;
        let votes = votes_in(self.place.site, t, steps.as_slice());
        Ok(have_every_yes(votes))
    }

    fn election(&self, t: &Txn) -> Result<Option<Election>, NoMemory> {
        let a = &self.place;
        election_in_progress(self.alloc, a.site, a.life.inc, t, a.life.steps.as_slice())
    }

    fn round(&self, t: &Txn) -> Option<Acks> {
        round_in_progress(self.place.site, t, self.place.life.steps.as_slice())
    }

    fn begins(&self) -> u32 {
        begins(self.place.life.steps.as_slice())
    }

    fn next_call(&self) -> Call {
        next_call(self.place.life.inc, self.place.life.steps.as_slice())
    }
}
