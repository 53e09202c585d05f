// The lock: its calls, each made of a few atomic steps.
ghost use Rattle.std.specs.Prelude.{◌≡◌, ◌%◌, ◌^◌, ◌<◌, length, IfOk, [], ◌∷◌, Some, MatchOption};
ghost use Rattle.e3_turn.specs.Chronicles.{down_from};
ghost use Rattle.e3_turn.specs.Steps.{Rests, Took, Waits};
ghost use Rattle.e3_turn.specs.Passes.{GrewByOthers, GrewByOwners, HasJoined, HasDealt, HasTurn, IsIdle, Owns, OwnsAll, SameOwners, last_of, owners_of, seen_by};

use crate::chronicle::Chronicle;
use crate::plays::{Chooses, Draws, GivesAway, Learns, Looks, PassesOn, PutsTogether};
use crate::view::{Key, TurnRule, View};
use atomic_table::{Seat, Table};
use e3_types::NoMemory;
use std::alloc::Global;
use std::hint::spin_loop;
use std::marker::Model;
use std::snapshot::Snapshot;
use std::sync::Wait;
use std::thread;
use std::thread::Parker;
use std::time::Duration;

// The words of the table: tickets drawn, and tickets served.
const DRAWN: usize = 0;

const SERVED: usize = 1;

// The slot of the table.
const VALUE: usize = 0;

// How often a pass with a ticket looks before it sleeps: to be woken costs more than the turn of another takes.
const LOOKS: u32 = 100;

// How often a pass without a ticket looks whether the lock is free before it naps.
const GLANCES: u32 = 10;

// How often it naps before it draws a ticket all the same, and how many microseconds for: some turns of another.
const NAPS: u32 = 8;

const NAP: u64 = 50;

/// What one caller knows of the lock: the owners that it speaks for, the chronicle that it has seen, and whether it has
/// the turn. It has no bytes, and may go to another thread.
pub type Pass<V> = Seat<Option<V>, View<<V as Chronicle>::Mark>>;

/// A value that is taken by one pass at a time, in the order in which tickets were drawn. Contracts see the lock as its
/// identity.
#[derive(Drop)]
pub struct TurnLock<V: Chronicle + Drop> {
    table: Table<Option<V>, View<<V as Chronicle>::Mark>, Key<V>, TurnRule<V>, Global>,
}

impl<V: Chronicle + Drop> Model for TurnLock<V> {
    ghost use Rattle.std.specs.Prelude.{◌≡◌};
    ghost use Rattle.atomic_table.specs.Seated.{TableId};

    ghost Value = { TableId };

    ghost view = { λ l. l.table.shared.table_id };

    ghost invariant = { λ l. (l.table.shared.table_id.words ≡ 2) × (l.table.shared.table_id.slots ≡ 1) };
}

fn slot_of<V: Drop>(alloc: Global, value: V) -> Result<Vec<Option<V>>, NoMemory>
    ensures { IfOk result (λ v. v.items ≡ Some value ∷ []) }
{
    let mut slots = Vec::new(alloc);
    match slots.push(Some(value)) {
        Ok(()) => Ok(slots),
        Err(_) => Err(NoMemory),
    }
}

impl<V: Chronicle + Drop> TurnLock<V> {
    /// A lock round a value, with its first pass, which owns 0 to `owners`.
    pub fn open(alloc: Global, value: V, owners: u32) -> Result<(TurnLock<V>, Pass<V>), NoMemory>
        ensures idle { IfOk result (λ r. IsIdle r.0 r.1) }
        ensures owners { IfOk result (λ r. (owners_of r.1 ≡ down_from owners) × (last_of r.1 ≡ owners)) }
        ensures seen { IfOk result (λ r. seen_by r.1 ≡ V.marks value) }
    {
        let key = Key {
            last: owners,
            opening: Snapshot::of(&value),
        };
        let slots = slot_of(alloc, value)?;
        match Table::new(alloc, &[0, 0], slots, &key) {
            Ok((table, pass)) => Ok((TurnLock { table }, pass)),
            Err(_) => Err(NoMemory),
        }
    }

    // Whether no pass has a ticket. That may change at any time.
    fn is_free(&self) -> bool {
        self.table.shared.peek(DRAWN) == self.table.shared.peek(SERVED)
    }

    // Glances whether the lock is free, some times.
    fn glance(&self) -> bool {
        for _ in 0..GLANCES {
            if self.is_free() {
                return true;
            }
            spin_loop();
        }
        false
    }

    // Lets others go on that are at work, until the lock is free or some naps are over: a thread that takes the next turns
    // too costs far less than a turn that goes from thread to thread each time.
    fn hold_back<R: Wait>(&self, rt: &R) {
        let bed = Parker::new();
        for _ in 0..NAPS {
            if self.glance() {
                return;
            }
            bed.park_timeout(rt, Duration::from_micros(NAP));
        }
    }

    // Wakes those that wait, behind the turn of this ticket.
    fn wake(&self, ticket: u64) {
        if self.table.shared.peek(DRAWN) != ticket.wrapping_add(1) {
            self.table.shared.wake_all(SERVED);
        }
    }

    fn draw(&self, pass: &mut Pass<V>) -> u64
        requires { IsIdle self.now pass.old }
        ensures of_lock { pass.new.table_id ≡ self.now }
        ensures waits { Waits pass.new.me × (result ≡ pass.new.me.0.ticket % 2 ^ 64) }
        ensures same { SameOwners pass.old pass.new }
        ensures seen { seen_by pass.new ≡ seen_by pass.old }
    {
        self.table.shared.fetch_add::<Draws>(pass, DRAWN, 1)
    }

    // None where the pass has the turn, and else the ticket that is served.
    fn look(&self, pass: &mut Pass<V>, ticket: u64) -> Option<u64>
        requires of_lock { pass.old.table_id ≡ self.now }
        requires waits { Waits pass.old.me × (ticket ≡ pass.old.me.0.ticket % 2 ^ 64) }
        ensures of_lock { pass.new.table_id ≡ self.now }
        ensures told { MatchOption result (Took V.marks V.belongs pass.old.me pass.new.me) (λ _. pass.new.me ≡ pass.old.me) }
    {
        let found = self.table.shared.load::<Looks<V>>(pass, SERVED);
        if found == ticket { None } else { Some(found) }
    }

    // Looks some times, and lets other threads go on in between.
    fn look_on(&self, pass: &mut Pass<V>, ticket: u64) -> Option<u64>
        requires of_lock { pass.old.table_id ≡ self.now }
        requires waits { Waits pass.old.me × (ticket ≡ pass.old.me.0.ticket % 2 ^ 64) }
        ensures of_lock { pass.new.table_id ≡ self.now }
        ensures told { MatchOption result (Took V.marks V.belongs pass.old.me pass.new.me) (λ _. pass.new.me ≡ pass.old.me) }
    {
        for _ in 0..LOOKS {
            if self.look(pass, ticket).is_none() {
                return None;
            }
            thread::yield_now();
        }
        self.look(pass, ticket)
    }

    // Waits until the pass has the turn.
    fn wait<R: Wait>(&self, rt: &R, pass: &mut Pass<V>, ticket: u64)
        requires of_lock { pass.old.table_id ≡ self.now }
        requires waits { Waits pass.old.me × (ticket ≡ pass.old.me.0.ticket % 2 ^ 64) }
        ensures of_lock { pass.new.table_id ≡ self.now }
        ensures turn { Took V.marks V.belongs pass.old.me pass.new.me }
    {
        for _ in rt.forever() {
            match self.look_on(pass, ticket) {
                None => return,
                Some(found) => self
                    .table
                    .shared
                    .park(rt, SERVED, (found % (1 << 32)) as u32),
            }
        }
        unreachable!()
    }

    /// Waits for the turn, and takes the value. Of its chronicle the pass has seen a beginning, and no mark behind that
    /// is its owners'.
    pub fn take<R: Wait>(&self, rt: &R, pass: &mut Pass<V>) -> V
        requires { IsIdle self.now pass.old }
        ensures turn { HasTurn self.now pass.new }
        ensures same { SameOwners pass.old pass.new }
        ensures seen { seen_by pass.new ≡ V.marks result }
        ensures grew { GrewByOthers V.belongs pass.old (V.marks result) }
    {
        self.hold_back(rt);
        let ticket = self.draw(pass);
        self.wait(rt, pass, ticket);
        let Some(value) = self.table.shared.exchange(pass, VALUE, None) else {
            unreachable!()
        };
        value
    }

    /// Puts a value back, and passes the turn on. Its chronicle is what the pass has seen, and then marks of the pass's
    /// own owners alone.
    pub fn put(&self, pass: &mut Pass<V>, value: V)
        requires turn { HasTurn self.now pass.old }
        requires grew { GrewByOwners V.belongs pass.old (V.marks value) }
        ensures idle { IsIdle self.now pass.new }
        ensures same { SameOwners pass.old pass.new }
        ensures seen { seen_by pass.new ≡ V.marks value }
    {
        self.table.shared.exchange(pass, VALUE, Some(value));
        let ticket = self.table.shared.fetch_add::<PassesOn<V>>(pass, SERVED, 1);
        self.wake(ticket);
    }

    /// Gives one of the pass's owners to a new pass, which has seen the same.
    pub fn split(&self, pass: &mut Pass<V>, owner: u32) -> Pass<V>
        requires idle { IsIdle self.now pass.old }
        requires owns { Owns pass.old owner }
        requires keeps { 1 < length (owners_of pass.old) }
        ensures { HasDealt self.now owner pass.old pass.new result }
    {
        self.table
            .shared
            .compare_exchange::<Chooses>(pass, DRAWN, owner as u64, owner as u64);
        self.table.shared.split_seat::<GivesAway>(pass)
    }

    /// Joins another pass into one, which then speaks for the owners of both and has seen the longer chronicle. The next value
    /// that it takes begins with that, as `take` says.
    pub fn join(&self, pass: &mut Pass<V>, other: Pass<V>)
        requires idle { IsIdle self.now pass.old }
        requires other { IsIdle self.now other }
        ensures { HasJoined V.belongs self.now pass.old other pass.new }
    {
        self.table.shared.join_seat::<PutsTogether>(pass, other);
        self.table.shared.load::<Learns<V>>(pass, DRAWN);
    }

    /// Ends the lock, by the pass that owns all, and hands its value out.
    pub fn close(self, pass: Pass<V>) -> V
        requires idle { IsIdle self pass }
        requires all { OwnsAll pass }
        ensures { V.marks result ≡ seen_by pass }
    {
        let TurnLock { table } = self;
        let mut closed = table.close_with(pass);
        let Some(value) = closed.take(VALUE) else {
            unreachable!()
        };
        closed.free();
        value
    }
}
