// The past of a site as its tables have it.
ghost use Rattle.std.specs.Prelude.{◌≡◌, ◌<◌, ◌≤◌, ◌+◌, ◌*◌, ◌^◌, suc, IfOk, length};
ghost use Rattle.e3_world.specs.declared.lives.At.{At as Place};
ghost use Rattle.e3_world.specs.declared.lives.Incarnation.{Incarnation};
ghost use Rattle.e3_world.specs.Lives.{life_of};
ghost use Rattle.e3_world.specs.Steps.{step_at, step_of};
ghost use Rattle.e3_site.specs.past.Standing.{ReadsAt, TablesStand};

use crate::past::names;
use crate::past::names::Names;
use crate::past::tables::Tables;
use e3_cards::Cards;
use e3_commit::Acks;
use e3_elect::Election;
use e3_step::plain::unnumbered_input;
use e3_step::{Past, step_at};
use e3_types::{Answer, Call, Dir, Grant, Input, List, Name, NoMemory, Refusal, Txn};
use e3_world::{Asked, Expected, Made, Performed};
use std::alloc::Global;
use std::marker::{Brand, Model, PhantomData};

/// Where a step is made.
pub trait Whose {
    ghost place: { Place };
}

impl Whose for Brand {
    ghost use Rattle.std.specs.Prelude.{[]};
    ghost use Rattle.e3_types.specs.declared.entries.Input.TheVariants.{Begin};

    ghost place = { record { weights = []; site = 0; life = record { log = []; inc = 0; steps = [] }; input = Begin [] } };
}

// A past over tables that stand for it. Readings of names ask that the records of the step so far may follow the log, as those
// of each step of the definitions may: `steps_may_follow_the_log`.
#[derive(Drop)]
struct Reader<'a, K: Whose> {
    alloc: Global,
    weights: &'a [u32],
    cards: &'a Cards,
    names: &'a Names,
    input: &'a Input,
    of: PhantomData<K>,
}

impl<'a, K: Whose> Model for Reader<'a, K> {
    ghost use Rattle.std.specs.Prelude.{ℕ};
    ghost use Rattle.e3_site.specs.past.Standing.{ReadsAt};

    ghost Value = { ℕ };

    ghost view = { λ r. r.cards.now.site };

    ghost invariant = { λ r. ReadsAt K.place r.weights.now r.cards.now r.names.now r.input.now };
}

impl<'a, K: Whose> Past for Reader<'a, K> {
    ghost at = { λ _. K.place };

    fn alloc(&self) -> Global {
        self.alloc
    }

    fn weights(&self) -> &[u32] {
        self.weights
    }

    fn site(&self) -> u32 {
        let cards = self.cards;
        cards.site
    }

    fn inc(&self) -> u32 {
        let cards = self.cards;
        cards.inc
    }

    fn input(&self) -> &Input {
        self.input
    }

    fn elected(&self, t: &Txn) -> u32 {
        let cards = self.cards;
        cards.seen(t).elected
    }

    fn attempt(&self, t: &Txn) -> u32 {
        let cards = self.cards;
        cards.seen(t).attempt
    }

    fn decision(&self, t: &Txn) -> Option<Dir> {
        let cards = self.cards;
        cards.seen(t).decision
    }

    fn attempted(&self, t: &Txn) -> Option<Dir> {
        let cards = self.cards;
        cards.seen(t).attempted
    }

    fn voted(&self, t: &Txn) -> bool {
        let cards = self.cards;
        cards.seen(t).voted
    }

    fn issued_count(&self, t: &Txn) -> Result<u64, NoMemory> {
        let cards = self.cards;
        Ok(cards.issued_count(self.alloc, t))
    }

    fn unanswered(&self, t: &Txn, made: &Made) -> Result<Option<u32>, NoMemory> {
        let cards = self.cards;
        Ok(cards.unanswered(self.alloc, t, made))
    }

    fn is_awaited(&self, f: u32, t: &Txn, n: u32, made: &Made) -> Result<bool, NoMemory> {
        let cards = self.cards;
        cards.is_awaited(self.alloc, f, t, n, self.input, made)
    }

    fn expected(&self, t: &Txn, of: u32) -> Result<Expected, NoMemory> {
        let cards = self.cards;
        cards.expected(self.alloc, t, of)
    }

    fn kept_reason(&self, t: &Txn) -> Result<Option<Refusal>, NoMemory> {
        let cards = self.cards;
        Ok(cards.kept_reason(self.alloc, t))
    }

    fn done(&self, t: &Txn) -> Result<List<Performed>, NoMemory> {
        let cards = self.cards;
        cards.done(self.alloc, t)
    }

    fn value(&self, t: &Txn, name: &Name, made: &Made) -> Result<Answer, NoMemory> {
        let cards = self.cards;
        let row = names::row(self.alloc, self.names, name, made)?;
        cards.own_value(self.alloc, t, name, row, self.input, made)
    }

    fn answer(&self, q: &Asked) -> Result<Option<Answer>, NoMemory> {
        let cards = self.cards;
        Ok(cards.answer(self.alloc, q))
    }

    fn is_waiting(&self, q: &Asked, made: &Made) -> Result<bool, NoMemory> {
        let cards = self.cards;
        Ok(cards.is_waiting(self.alloc, q, made))
    }

    fn waits(&self, t: &Txn, made: &Made) -> Result<bool, NoMemory> {
        let cards = self.cards;
        Ok(cards.waits(self.alloc, t, made))
    }

    fn lock(&self, q: &Asked, made: &Made) -> Result<Grant, NoMemory> {
        names::lock(self.alloc, self.names, q, made)
    }

    fn grants_after(&self, made: &Made) -> Result<List<Asked>, NoMemory> {
        names::grants_after(self.alloc, self.cards, self.names, self.input, made)
    }

    fn has_every_yes(&self, t: &Txn, made: &Made) -> Result<bool, NoMemory> {
        let cards = self.cards;
        Ok(cards.has_every_yes(self.alloc, t, self.input, made))
    }

    fn election(&self, t: &Txn) -> Result<Option<Election>, NoMemory> {
        let cards = self.cards;
        cards.election(self.alloc, t)
    }

    fn round(&self, t: &Txn) -> Option<Acks> {
        let cards = self.cards;
        cards.round(t)
    }

    fn begins(&self) -> u32 {
        let cards = self.cards;
        cards.begins
    }

    fn next_call(&self) -> Call {
        let cards = self.cards;
        cards.next_call()
    }
}

fn step_at_place<K: Whose>(
    alloc: Global,
    weights: &[u32],
    cards: &Cards,
    names: &Names,
    input: &Input,
) -> Result<Made, NoMemory>
    requires { ReadsAt K.place weights.now cards.now names.now input.now }
    ensures made { IfOk result (λ made. made ≡ step_at K.place) }
    ensures few { IfOk result (λ made. length made.outs ≤ suc (length K.place.life.steps) + 9 * 64) }
{
    let reader: Reader<'_, K> = Reader {
        alloc,
        weights,
        cards,
        names,
        input,
        of: PhantomData,
    };
    step_at(&reader)
}

/// What an input makes a site do for whose life its tables stand. The weights are those of all sites, that of site 1 first.
/// The packets of the step have number 0, and the number of a delivered packet is nothing to it. 32 bits count them. Want of
/// memory is the only error. The site's number is passed on for the proof alone.
pub fn step_with(
    alloc: Global,
    weights: &[u32],
    _site: u32,
    tables: &Tables,
    input: &Input,
) -> Result<Made, NoMemory>
    ghost now: { Incarnation }
    requires stand { TablesStand _site (life_of now) tables.now }
    requires few { length now.since < 4000000000 }
    ensures made { IfOk result (λ made. made ≡ step_of weights.now _site now input.now) }
    ensures few { IfOk result (λ made. length made.outs < 2 ^ 32) }
{
    step_at_place::<Brand>(
        alloc,
        weights,
        &tables.cards,
        &tables.names,
        &unnumbered_input(input),
    )
}
