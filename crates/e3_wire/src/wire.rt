// The wire, in turns.
ghost use Rattle.std.specs.Prelude.{◌≡◌, ◌<◌, ◌≤◌, ◌++◌, ◌∷◌, ◌↔◌, [], ℕ, List as Items, length, true, IfOk, OnOk, OnErr, Err};
ghost use Rattle.e3_laws.specs.local.Others.{numbered_on};
ghost use Rattle.e3_turn.specs.Chronicles.{down_from};
ghost use Rattle.e3_turn.specs.Passes.{GrewByOthers, GrewByOwners, HasJoined, HasDealt, HasTurn, IsIdle, Owns, OwnsAll, SameOwners, last_of, owners_of, seen_by};
ghost use Rattle.e3_types.specs.declared.entries.Act.TheVariants as act;
ghost use Rattle.e3_wire.specs.Marks.{belongs, entries_of, last_owner, most_of, places_for, scenario_of, used_of};
ghost use Rattle.e3_wire.specs.Wires.{HasNoPlaceFor, IsPlayed, MayEnterBehind, first_few};
ghost use Rattle.e3_wire.specs.declared.fault.WireFault.TheVariants.{HistoryFull};
ghost use Rattle.e3_wire.specs.declared.marks.Mark.{Mark};
ghost use Rattle.e3_wire.specs.declared.marks.Mark.TheVariants as mark;
ghost use Rattle.e3_world.specs.Given.{IsGiven};
ghost use Rattle.e3_world.specs.Packets.{is_calm, present_items};

use crate::{Shared, WireFault};
use e3_turn::{Pass, TurnLock};
use e3_types::{Entry, List, NoMemory, Packet, Scenario};
use e3_world::History;
use std::alloc::Global;
use std::marker::Model;
use std::sync::Wait;

/// What one worker, or the driver, knows of the wire: the owners that it speaks for, and the marks that it has seen. Owner 0
/// is the driver, each other a site.
pub type WirePass = Pass<Shared>;

/// The history, the network and the promises of a run, which workers share in turns. Contracts see it as its identity.
#[derive(Drop)]
pub struct Wire {
    lock: TurnLock<Shared>,
}

impl Model for Wire {
    ghost use Rattle.atomic_table.specs.Seated.{TableId};

    ghost Value = { TableId };

    ghost view = { λ w. w.lock };
}

impl Wire {
    /// A wire with a history without entries, which may have so many, 2,000,000 at most, and its first pass, which owns 0 and
    /// all sites. Want of memory is the only error.
    pub fn open(alloc: Global, scenario: Scenario, most: u32) -> Result<(Wire, WirePass), NoMemory>
        requires given { IsGiven scenario }
        requires most { most ≤ 2000000 }
        ensures idle { IfOk result (λ r. IsIdle r.0 r.1) }
        ensures owners { IfOk result (λ r. (owners_of r.1 ≡ down_from (length scenario.weights)) × (last_of r.1 ≡ length scenario.weights)) }
        ensures seen { IfOk result (λ r. seen_by r.1 ≡ mark.Start scenario most ∷ []) }
        ensures played { IfOk result (λ r. IsPlayed (seen_by r.1)) }
    {
        let sites = scenario.weights.len() as u32;
        let shared = Shared::open(alloc, scenario, most)?;
        shared.tell();
        let (lock, pass) = TurnLock::open(alloc, shared, sites)?;
        Ok((Wire { lock }, pass))
    }

    /// Waits for the turn, and takes what is shared. It begins with what the pass has seen, and no mark behind that is its
    /// owners'.
    pub fn take<R: Wait>(&self, rt: &R, pass: &mut WirePass) -> Shared
        requires { IsIdle self.now pass.old }
        ensures turn { HasTurn self.now pass.new }
        ensures same { SameOwners pass.old pass.new }
        ensures seen { seen_by pass.new ≡ result }
        ensures grew { GrewByOthers belongs pass.old result }
        ensures played { IsPlayed result }
    {
        let shared = self.lock.take(rt, pass);
        shared.tell();
        shared
    }

    /// Puts back what is shared, and passes the turn on. Its marks are what the pass has seen, and then marks of the pass's
    /// own owners alone.
    pub fn put(&self, pass: &mut WirePass, shared: Shared)
        requires turn { HasTurn self.now pass.old }
        requires grew { GrewByOwners belongs pass.old shared }
        ensures idle { IsIdle self.now pass.new }
        ensures same { SameOwners pass.old pass.new }
        ensures seen { seen_by pass.new ≡ shared }
        ensures played { IsPlayed (seen_by pass.new) }
    {
        shared.tell();
        self.lock.put(pass, shared);
    }

    /// Promises an owner of the pass a place for one entry, and room for so many packets of it. Room that a step does not use
    /// stays promised. `HistoryFull`: exactly where the entries and promised places are as many as there may be entries.
    pub fn claim<R: Wait>(
        &self,
        rt: &R,
        pass: &mut WirePass,
        owner: u32,
        outs: u32,
    ) -> Result<(), WireFault>
        requires idle { IsIdle self.now pass.old }
        requires owns { Owns pass.old owner }
        requires exists { owner ≤ last_owner (seen_by pass.old) }
        ensures idle { IsIdle self.now pass.new }
        ensures same { SameOwners pass.old pass.new }
        ensures claimed { (between : Items Mark) × GrewByOthers belongs pass.old between
            × OnOk result (seen_by pass.new ≡ between ++ mark.Place owner outs ∷ []) × OnErr result (seen_by pass.new ≡ between)
            × ((result ≡ Err HistoryFull) ↔ (most_of between ≤ used_of between)) × IsPlayed between }
        ensures played { IsPlayed (seen_by pass.new) }
    {
        let mut shared = self.take(rt, pass);
        let claimed = shared.claim(owner, outs);
        self.put(pass, shared);
        claimed
    }

    /// The first pending packets to a site of the pass, each as often as it has copies left, that of least number first: so
    /// many at most, and no more than there are places left. They stay pending, and the first ones until entries of the site
    /// take them, or the driver drops them; and a place without room is promised to the site for each of them.
    /// `HistoryFull`: exactly where some packet is asked for and pending, and no place is left.
    pub fn next_few<R: Wait>(
        &self,
        rt: &R,
        alloc: Global,
        pass: &mut WirePass,
        site: u32,
        most: u32,
    ) -> Result<List<Packet>, WireFault>
        requires idle { IsIdle self.now pass.old }
        requires owns { Owns pass.old site }
        requires exists { site ≤ last_owner (seen_by pass.old) }
        ensures idle { IsIdle self.now pass.new }
        ensures same { SameOwners pass.old pass.new }
        ensures found { (between : Items Mark) × GrewByOthers belongs pass.old between
            × IfOk result (λ few. (few ≡ first_few between site most) × (seen_by pass.new ≡ between ++ places_for site (length few)))
            × OnErr result (seen_by pass.new ≡ between) × ((result ≡ Err HistoryFull) ↔ HasNoPlaceFor between site most) × IsPlayed between }
        ensures played { IsPlayed (seen_by pass.new) }
    {
        let mut shared = self.take(rt, pass);
        let found = shared.next_few(alloc, site, most);
        self.put(pass, shared);
        found
    }

    /// The number of entries of the history that the pass has seen then.
    pub fn len<R: Wait>(&self, rt: &R, pass: &mut WirePass) -> u64
        requires { IsIdle self.now pass.old }
        ensures idle { IsIdle self.now pass.new }
        ensures same { SameOwners pass.old pass.new }
        ensures grew { GrewByOthers belongs pass.old (seen_by pass.new) }
        ensures len { result ≡ length (entries_of (seen_by pass.new)) }
        ensures played { IsPlayed (seen_by pass.new) }
    {
        let shared = self.take(rt, pass);
        let len = shared.history().len() as u64;
        self.put(pass, shared);
        len
    }

    /// Enters an entry of a site of the pass, behind all that is entered now. It was allowed, but for the numbers of its
    /// packets, behind what the pass had seen, and takes the first packets to its site, or none; a place and room were
    /// promised. It takes no memory.
    pub fn commit_entry<R: Wait>(&self, rt: &R, pass: &mut WirePass, entry: Entry)
        requires idle { IsIdle self.now pass.old }
        requires owns { Owns pass.old entry.owner }
        requires may { MayEnterBehind (seen_by pass.old) entry }
        requires alone { is_calm (present_items (scenario_of (seen_by pass.old)) (entries_of (seen_by pass.old))) ≡ true → OwnsAll pass.old }
        ensures idle { IsIdle self.now pass.new }
        ensures same { SameOwners pass.old pass.new }
        ensures entered { (between : Items Mark) × GrewByOthers belongs pass.old between
            × (seen_by pass.new ≡ between ++ mark.Entered (numbered_on (entries_of between) entry) ∷ []) × IsPlayed between }
        ensures played { IsPlayed (seen_by pass.new) }
    {
        let mut shared = self.take(rt, pass);
        shared.enter(entry);
        self.put(pass, shared);
    }

    /// Gives one of the pass's owners to a new pass, which has seen the same.
    pub fn split(&self, pass: &mut WirePass, owner: u32) -> WirePass
        requires idle { IsIdle self.now pass.old }
        requires owns { Owns pass.old owner }
        requires keeps { 1 < length (owners_of pass.old) }
        ensures { HasDealt self.now owner pass.old pass.new result }
    {
        self.lock.split(pass, owner)
    }

    /// Joins another pass into one, which then speaks for the owners of both and has seen the longer chronicle.
    pub fn join(&self, pass: &mut WirePass, other: WirePass)
        requires idle { IsIdle self.now pass.old }
        requires other { IsIdle self.now other }
        ensures { HasJoined belongs self.now pass.old other pass.new }
    {
        self.lock.join(pass, other);
    }

    /// Ends the wire, by the pass that owns all, and hands the history out.
    pub fn close(self, pass: WirePass) -> History
        requires idle { IsIdle self pass }
        requires all { OwnsAll pass }
        ensures { result.entries ≡ entries_of (seen_by pass) }
    {
        let Wire { lock } = self;
        lock.close(pass).close()
    }
}
