// What is under the lock.
ghost use Rattle.std.specs.Prelude.{◌≡◌, ◌++◌, [], ◌∷◌, ◌+◌, ◌≤◌, ◌<◌, ◌≢◌, ◌==◌, ◌↔◌, ℕ, List as Items, true, false, nat_le, length, IfOk, OnOk, OnErr, Err, None, find};
ghost use Rattle.e3_laws.specs.local.Others.{numbered_on};
ghost use Rattle.e3_types.specs.declared.entries.Act.TheVariants as act;
ghost use Rattle.e3_wire.specs.Marks.{entries_of, last_owner, most_of, note_of, places_for, scenario_of, used_of};
ghost use Rattle.e3_wire.specs.Wires.{EndsInPromise, HasNoPlaceFor, IsDriven, IsDroppedFor, IsInTurn, IsPlayed, MayEnterBehind, first_few, places_left};
ghost use Rattle.e3_wire.specs.declared.fault.WireFault.TheVariants.{HistoryFull};
ghost use Rattle.e3_wire.specs.declared.marks.Mark.{Mark as MarkValue};
ghost use Rattle.e3_wire.specs.declared.marks.Mark.TheVariants as mark;
ghost use Rattle.e3_world.specs.Given.{IsGiven};
ghost use Rattle.e3_world.specs.Items.{is_up_at};
ghost use Rattle.e3_world.specs.Legal.{IsLine, IsParts, first_pending};
ghost use Rattle.e3_world.specs.Packets.{pending};

use crate::growing::Store;
use crate::passing::{is_calm_in, pass_on};
use crate::promises::{no_notes, note_act, note_claim, note_freed, unnote_claim};
use crate::{Mark, Note, Stored, WireFault};
use e3_net::Net;
use e3_turn::Chronicle;
use e3_types::{Act, Copied, Entry, List, NoMemory, Packet, Scenario, SiteSet};
use e3_world::History;
use std::alloc::Global;
use std::marker::Model;

/// The scenario that is played, the history, its network, and what is promised. Contracts see it as its marks.
#[derive(Drop)]
pub struct Shared {
    alloc: Global,
    scenario: Scenario,
    most: u32,
    net: Net,
    store: Store,
    // What is promised to each owner, that of the driver first; and in all, how many places, and room for how many packets.
    notes: Vec<Note>,
    places: u64,
    room: u64,
}

impl Model for Shared {
    ghost use Rattle.std.specs.Prelude.{List, vec_capacity};
    ghost use Rattle.e3_wire.specs.declared.marks.Mark.{Mark};

    ghost Value = { List Mark };

    ghost use Rattle.e3_wire.specs.Stores.{IsKept, marks_from};

    ghost view = { λ s. marks_from s.scenario s.most s.store.history.entries s.store.stored.items };

    ghost invariant = { λ s. IsKept s.scenario s.most s.store.history.entries s.store.stored.items s.net.traffic s.notes.items s.places s.room
        s.store.spare s.store.history.room (vec_capacity s.store.stored) s.net.room };
}

impl Chronicle for Shared {
    type Mark = Mark;

    ghost use Rattle.e3_wire.specs.Marks.{belongs};

    ghost marks = { λ s. s };

    ghost belongs = { belongs };
}

impl Shared {
    /// A history without entries, which may have so many, 2,000,000 at most, and its network. Want of memory is the only error.
    pub fn open(alloc: Global, scenario: Scenario, most: u32) -> Result<Shared, NoMemory>
        requires given { IsGiven scenario }
        requires most { most ≤ 2000000 }
        ensures { IfOk result (λ s. s ≡ mark.Start scenario most ∷ []) }
    {
        let sites = scenario.weights.len();
        let notes = no_notes(alloc, sites as usize + 1)?;
        let net = Net::of(alloc, &scenario)?;
        Ok(Shared {
            alloc,
            scenario,
            most,
            net,
            store: Store::new(alloc),
            notes,
            places: 0,
            room: 0,
        })
    }

    /// Tells what is always true of it.
    pub fn tell(&self)
        ensures { IsPlayed self.now }
    {
        let _ = &self.scenario;
    }

    /// The allocator that it was made with.
    pub fn alloc(&self) -> Global {
        self.alloc
    }

    /// The scenario that is played.
    pub fn scenario(&self) -> &Scenario
        ensures { result.now ≡ scenario_of self.now }
    {
        &self.scenario
    }

    /// The history so far, in the order of its entries.
    pub fn history(&self) -> &[Entry]
        ensures { result.now ≡ entries_of self.now }
    {
        self.store.history.as_slice()
    }

    /// Its entries and promised places are as many as it may have entries.
    pub fn is_full(&self) -> bool
        ensures { result ≡ nat_le (most_of self.now) (used_of self.now) }
    {
        u64::from(self.most) <= self.store.history.len() + self.places
    }

    // How many places are neither used nor promised.
    fn places_left(&self) -> u32
        ensures { result ≡ places_left self.now }
    {
        let used = self.store.history.len() + self.places;
        u64::from(self.most).saturating_sub(used) as u32
    }

    /// The pending packet of least number, if one is pending; it stays pending.
    pub fn first(&self) -> Option<Packet>
        ensures { result ≡ first_pending (scenario_of self.now) (entries_of self.now) }
    {
        match self.net.first_pending() {
            Some(packet) => Some(packet.copy()),
            None => None,
        }
    }

    /// The pending packet to this site of least number, if one is pending to it; it stays pending.
    pub fn next_to(&self, site: u32) -> Option<Packet>
        ensures { result ≡ find (λ q. q.to == site) (pending (scenario_of self.now) (entries_of self.now)) }
    {
        match self.net.next_to(site) {
            Some(packet) => Some(packet.copy()),
            None => None,
        }
    }

    // Takes all memory for one more entry of an owner with so many packets, and promises it.
    fn promise(&mut self, owner: u32, outs: u32) -> Result<(), NoMemory>
        requires owner { owner ≤ last_owner self.old }
        requires few { used_of self.old < most_of self.old }
        ensures ok { OnOk result (self.new ≡ self.old ++ mark.Place owner outs ∷ []) }
        ensures kept { OnErr result (self.new ≡ self.old) }
    {
        let room = self.room + u64::from(outs);
        self.net.reserve(room)?;
        self.store.make_room(self.places, 1)?;
        self.store
            .stored
            .push_reserved(Stored::Place { owner, outs });
        note_claim(&mut self.notes, owner, 1, outs);
        self.places += 1;
        self.room = room;
        Ok(())
    }

    /// Promises the owner a place for one entry, and room for so many packets of it, and takes all memory for them. Room that
    /// a step does not use stays promised. `HistoryFull`: exactly where the entries and promised places are as many as there may be
    /// entries.
    pub fn claim(&mut self, owner: u32, outs: u32) -> Result<(), WireFault>
        requires { owner ≤ last_owner self.old }
        ensures ok { OnOk result (self.new ≡ self.old ++ mark.Place owner outs ∷ []) }
        ensures kept { OnErr result (self.new ≡ self.old) }
        ensures full { (result ≡ Err HistoryFull) ↔ (most_of self.old ≤ used_of self.old) }
    {
        if self.is_full() {
            return Err(WireFault::HistoryFull);
        }
        self.promise(owner, outs)?;
        Ok(())
    }

    // Takes all memory for so many more entries of an owner without packets, and promises them.
    fn promise_places(&mut self, owner: u32, count: u32) -> Result<(), NoMemory>
        requires owner { owner ≤ last_owner self.old }
        requires few { used_of self.old + count ≤ most_of self.old }
        ensures ok { OnOk result (self.new ≡ self.old ++ places_for owner count) }
        ensures kept { OnErr result (self.new ≡ self.old) }
    {
        self.store.make_room(self.places, count)?;
        self.store.push_places(owner, count);
        note_claim(&mut self.notes, owner, count, 0);
        self.places += u64::from(count);
        Ok(())
    }

    // Some packet to the site is asked for and pending, and no place is left for it.
    fn has_no_place_for(&self, site: u32, most: u32) -> bool
        ensures { (result ≡ true) ↔ HasNoPlaceFor self.now site most }
    {
        most > 0 && self.is_full() && self.next_to(site).is_some()
    }

    /// The first pending packets to this site, each as often as it has copies left, that of least number first: so many at
    /// most, and no more than there are places left. They stay pending, and a place without room is promised to the site
    /// for each of them. `HistoryFull`: exactly where some packet is asked for and pending, and no place is left.
    pub fn next_few(
        &mut self,
        alloc: Global,
        site: u32,
        most: u32,
    ) -> Result<List<Packet>, WireFault>
        requires { site ≤ last_owner self.old }
        ensures ok { IfOk result (λ few. (few ≡ first_few self.old site most) × (self.new ≡ self.old ++ places_for site (length few))) }
        ensures kept { OnErr result (self.new ≡ self.old) }
        ensures full { (result ≡ Err HistoryFull) ↔ HasNoPlaceFor self.old site most }
    {
        if self.has_no_place_for(site, most) {
            return Err(WireFault::HistoryFull);
        }
        let most = most.min(self.places_left());
        let few = self.net.next_few(alloc, site, most)?;
        self.promise_places(site, few.len() as u32)?;
        Ok(few)
    }

    /// Lets all fall away that is promised to the owner, places and room. It takes no memory: a promised place has room for
    /// the mark.
    pub fn free(&mut self, owner: u32)
        requires exists { owner ≤ last_owner self.old }
        requires place { 1 ≤ (note_of owner self.old).places }
        ensures { self.new ≡ self.old ++ mark.Freed owner ∷ [] }
    {
        let was = note_freed(&mut self.notes, owner);
        self.store.stored.push_reserved(Stored::Freed { owner });
        self.places -= was.places;
        self.room -= was.room;
    }

    /// Takes back the promise to the owner that is the last mark, with its room: nothing was entered for it. It takes no
    /// memory.
    pub fn withdraw(&mut self, owner: u32, outs: u32)
        requires { (before : Items MarkValue) × EndsInPromise owner outs before self.old }
        ensures { (before : Items MarkValue) → self.old ≡ before ++ mark.Place owner outs ∷ [] → self.new ≡ before }
    {
        let kept = self.store.stored.as_slice().len() - 1;
        self.store.stored.truncate(kept);
        unnote_claim(&mut self.notes, owner, outs);
        self.places -= 1;
        self.room -= u64::from(outs);
    }

    /// Enters an entry of a site: the packets that it takes leave the network, its packets are sent, with the next numbers,
    /// and what was promised for it is used; a fall gives all room back that was promised to its site. It takes no memory.
    pub fn enter(&mut self, entry: Entry)
        requires { MayEnterBehind self.old entry }
        ensures { self.new ≡ self.old ++ mark.Entered (numbered_on (entries_of self.old) entry) ∷ [] }
    {
        let owner = entry.owner;
        let act = pass_on(&mut self.net, entry.act);
        let used = note_act(&mut self.notes, owner, &act);
        self.store.push(Entry { owner, act });
        self.places -= used.places;
        self.room -= used.room;
    }

    /// Enters the line of the next step. The network is calm from now on exactly where the step is a recovery. `HistoryFull`:
    /// exactly where the entries and promised places are as many as there may be entries.
    pub fn line(&mut self, number: u32) -> Result<(), WireFault>
        requires { IsLine (scenario_of self.old) (entries_of self.old) number }
        ensures { IsDriven (act.Line number) self.old self.new result }
    {
        if self.is_full() {
            return Err(WireFault::HistoryFull);
        }
        self.store.make_room(self.places, 1)?;
        let calm = is_calm_in(&self.scenario, number);
        self.net.calm(calm);
        self.store.push(Entry {
            owner: 0,
            act: Act::Line { number },
        });
        Ok(())
    }

    /// Enters the parts into which the network falls, directly behind the line of a split or a merge. `HistoryFull`: exactly
    /// where the entries and promised places are as many as there may be entries.
    pub fn parts(&mut self, parted: List<SiteSet>) -> Result<(), WireFault>
        requires { IsParts (scenario_of self.old) (entries_of self.old) parted }
        ensures { IsDriven (act.Parts parted) self.old self.new result }
    {
        if self.is_full() {
            return Err(WireFault::HistoryFull);
        }
        self.store.make_room(self.places, 1)?;
        let kept = parted.copied(self.alloc)?;
        self.net.parts(kept);
        self.store.push(Entry {
            owner: 0,
            act: Act::Parts { parts: parted },
        });
        Ok(())
    }

    /// Drops the least pending packet to a site that is down, and answers its number; none exactly where none is pending to
    /// it. In a recover step it is the least of all. `HistoryFull`: exactly where one is pending, and the entries and promised
    /// places are as many as there may be entries.
    pub fn drop_for(&mut self, site: u32) -> Result<Option<u64>, WireFault>
        requires down { is_up_at (entries_of self.old) site ≡ false }
        requires order { IsInTurn (scenario_of self.old) (entries_of self.old) site }
        ensures dropped { IfOk result (λ number. IsDroppedFor site number self.old self.new) }
        ensures kept { OnErr result (self.new ≡ self.old) }
        ensures full { (result ≡ Err HistoryFull) ↔ ((most_of self.old ≤ used_of self.old)
            × (find (λ q. q.to == site) (pending (scenario_of self.old) (entries_of self.old)) ≢ None)) }
    {
        let Some(packet) = self.next_to(site) else {
            return Ok(None);
        };
        if self.is_full() {
            return Err(WireFault::HistoryFull);
        }
        self.store.make_room(self.places, 1)?;
        let _taken = self.net.take(site);
        self.store.push(Entry {
            owner: 0,
            act: Act::Drop {
                packet: packet.number,
            },
        });
        Ok(Some(packet.number))
    }

    /// The history. What was promised and not used falls away.
    pub fn close(self) -> History
        ensures { result.entries ≡ entries_of self }
    {
        let store = self.store;
        store.history
    }
}
