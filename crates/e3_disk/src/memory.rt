// A disk in memory.
ghost use Rattle.std.specs.Prelude.{◌≡◌, ◌≢◌, ◌↔◌, ◌+◌, ◌-◌, ◌≤◌, ◌<◌, ◌^◌, [], ◌∷◌, true, Ok, Err, length, take, drop, IfOk, IfErr, OnOk, if◌then◌else◌};
ghost use Rattle.e3_disk.specs.Images.{Holds, Tears, Within, SameImages, Only, Untouched, IsBlank};
ghost use Rattle.e3_disk.specs.Leaves.{code_of};
ghost use Rattle.e3_disk.specs.Meters.{Reads, Writes, armed, cut, lit};
ghost use Rattle.e3_disk.specs.declared.fault.DiskFault.TheVariants.{Failed, Full};

use crate::panel::{Panel, Turn};
use crate::schedule::Schedule;
use crate::store::Store;
use crate::{Disk, DiskFault, Drill};
use e3_types::{Leave, List, NoMemory};
use std::alloc::Global;

/// A disk in memory, some of whose calls may be made to fail. It takes all its memory at once.
#[derive(Drop)]
pub struct MemDisk {
    store: Store,
    panel: Panel,
    schedule: Schedule,
    writes: u64,
    ghost room: { (panel.capacity ≡ store.content.room) × (2 ≤ panel.capacity) × (panel.capacity ≤ 2 ^ 30) },
}

impl Disk for MemDisk {
    ghost use Rattle.e3_disk.specs.Memory.{state_of, images_of, memory_meaning, reads_next, after_look, write_answer, after_write, sync_answer, after_sync, CountsOnlyOwn};

    ghost meaning = { memory_meaning };

    ghost reads_an_image = { λ d. d.store.torn };

    ghost counted = { λ d. record {
      faults = d.panel.few_faults.0;
      arms = d.panel.few_drills.0;
      calls = d.panel.few_drills.1;
      codes = d.panel.few_drills.2;
      cuts = d.panel.few_drills.3;
      stops = d.panel.few_faults.1;
    } };

    fn capacity(&self) -> u64 {
        self.panel.capacity
    }

    fn len(&mut self) -> Result<u64, DiskFault>
        ensures value { IfOk result (λ n. n ≡ length (state_of self.old).bytes.content) }
        ensures within { IfOk result (λ n. n ≤ (state_of self.old).meters.capacity) }
        ensures same { OnOk result ((state_of self.new).bytes.content ≡ (state_of self.old).bytes.content) }
        ensures images { Within (images_of (state_of self.old)) (images_of (state_of self.new)) }
        ensures kept { OnOk result (Within (images_of (state_of self.new)) (images_of (state_of self.old))) }
        ensures not_full { IfErr result (λ e. e ≡ Failed) }
        ensures meters { Reads (state_of self.old).meters (state_of self.new).meters result }
        // exactly
        ensures answer { result ≡ (if reads_next (state_of self.old) then Ok (length (state_of self.old).bytes.content) else Err Failed) }
        ensures after { state_of self.new ≡ after_look (state_of self.old) }
        ensures count { CountsOnlyOwn (state_of self.old) (state_of self.new) }
    {
        let listed = self.schedule.is_listed();
        if self.panel.read_turn(listed) {
            Ok(self.store.content.len() as u64)
        } else {
            Err(DiskFault::Failed)
        }
    }

    fn read_at(&mut self, place: u64, into: &mut [u8]) -> Result<(), DiskFault>
        requires { place + length into.old ≤ length (state_of self.old).bytes.content }
        ensures bytes { OnOk result (into.new ≡ take (length into.old) (drop place (state_of self.old).bytes.content)) }
        ensures same { OnOk result ((state_of self.new).bytes.content ≡ (state_of self.old).bytes.content) }
        ensures images { Within (images_of (state_of self.old)) (images_of (state_of self.new)) }
        ensures kept { OnOk result (Within (images_of (state_of self.new)) (images_of (state_of self.old))) }
        ensures not_full { IfErr result (λ e. e ≡ Failed) }
        ensures meters { Reads (state_of self.old).meters (state_of self.new).meters result }
        // exactly
        ensures answer { result ≡ (if reads_next (state_of self.old) then Ok tt else Err Failed) }
        ensures after { state_of self.new ≡ after_look (state_of self.old) }
        ensures count { CountsOnlyOwn (state_of self.old) (state_of self.new) }
    {
        let listed = self.schedule.is_listed();
        if self.panel.read_turn(listed) {
            self.store.content.read(place as usize, into);
            Ok(())
        } else {
            Err(DiskFault::Failed)
        }
    }

    fn write_at(&mut self, place: u64, bytes: &[u8]) -> Result<(), DiskFault>
        requires { place ≤ length (state_of self.old).bytes.content }
        ensures written { OnOk result (Holds (state_of self.old).bytes.content place bytes.now (state_of self.new).bytes.content) }
        ensures images { Tears place (length bytes.now) (images_of (state_of self.old)) (images_of (state_of self.new)) }
        ensures full { (state_of self.old).meters.capacity < place + length bytes.now ↔
            (result ≡ Err (Full (place + length bytes.now) (state_of self.old).meters.capacity)) }
        ensures only_full { IfErr result (λ e. e ≢ Failed → (state_of self.old).meters.capacity < place + length bytes.now) }
        ensures untouched { (state_of self.old).meters.capacity < place + length bytes.now →
            Untouched memory_meaning self.old self.new }
        ensures meters { Writes (state_of self.old).meters (state_of self.new).meters result }
        // exactly
        ensures answer { result ≡ write_answer place bytes.now (state_of self.old) }
        ensures after { state_of self.new ≡ after_write place bytes.now (state_of self.old) }
        ensures count { CountsOnlyOwn (state_of self.old) (state_of self.new) }
    {
        self.writes = self.writes.saturating_add(1);
        let listed = self.schedule.is_listed();
        let room = self.panel.capacity;
        let need = place + bytes.len() as u64;
        if need > room {
            return Err(DiskFault::Full { need, room });
        }
        let turn = self.panel.write_turn(listed);
        let leave = self.panel.leave;
        self.store.write_by(turn, place as usize, bytes, leave)
    }

    fn sync(&mut self) -> Result<(), DiskFault>
        ensures durable { OnOk result (Only (state_of self.old).bytes.content (images_of (state_of self.new))) }
        ensures same { OnOk result ((state_of self.new).bytes.content ≡ (state_of self.old).bytes.content) }
        ensures images { Within (images_of (state_of self.old)) (images_of (state_of self.new)) }
        ensures not_full { IfErr result (λ e. e ≡ Failed) }
        ensures meters { Writes (state_of self.old).meters (state_of self.new).meters result }
        // exactly
        ensures answer { result ≡ sync_answer (state_of self.old) }
        ensures after { state_of self.new ≡ after_sync (state_of self.old) }
        ensures count { CountsOnlyOwn (state_of self.old) (state_of self.new) }
    {
        self.writes = self.writes.saturating_add(1);
        let listed = self.schedule.is_listed();
        match self.panel.write_turn(listed) {
            Turn::Go => {
                self.store.sync();
                Ok(())
            }
            Turn::Stop => {
                let leave = self.panel.leave;
                self.store.stop(leave);
                Err(DiskFault::Failed)
            }
            Turn::Fail => Err(DiskFault::Failed),
        }
    }
}

impl Drill for MemDisk {
    ghost use Rattle.e3_disk.specs.Memory.{state_of, images_of, after_arm, after_cut, after_power};

    fn arm(&mut self, calls: u32, leave: Leave)
        requires { 1 ≤ calls }
        ensures same { (state_of self.new).bytes.content ≡ (state_of self.old).bytes.content }
        ensures images { SameImages (images_of (state_of self.old)) (images_of (state_of self.new)) }
        ensures meters { (state_of self.new).meters ≡ armed (state_of self.old).meters calls (code_of leave) }
        // exactly
        ensures after { state_of self.new ≡ after_arm calls leave (state_of self.old) }
    {
        self.panel.arm(calls, leave);
    }

    fn power_cut(&mut self)
        ensures left { images_of (state_of self.old) (state_of self.new).bytes.content }
        ensures images { Within (images_of (state_of self.old)) (images_of (state_of self.new)) }
        ensures meters { (state_of self.new).meters ≡ cut (state_of self.old).meters }
        // exactly
        ensures after { state_of self.new ≡ after_cut (state_of self.old) }
    {
        self.store.stop(Leave::None);
        self.panel.power_cut();
    }

    fn power_on(&mut self)
        ensures left { images_of (state_of self.old) (state_of self.new).bytes.content }
        ensures images { Within (images_of (state_of self.old)) (images_of (state_of self.new)) }
        ensures same { (state_of self.old).meters.powered ≡ true → (state_of self.new).bytes.content ≡ (state_of self.old).bytes.content }
        ensures kept { (state_of self.old).meters.powered ≡ true → Within (images_of (state_of self.new)) (images_of (state_of self.old)) }
        ensures meters { (state_of self.new).meters ≡ lit (state_of self.old).meters }
        // exactly
        ensures after { state_of self.new ≡ after_power (state_of self.old) }
    {
        self.panel.power_on();
    }
}

impl MemDisk {
    ghost use Rattle.e3_disk.specs.Memory.{state_of, memory_meaning, blank_state};

    /// A blank disk of this capacity. Of the memory that it takes, none is touched before a write reaches it.
    pub fn blank(alloc: Global, capacity: u64) -> Result<MemDisk, NoMemory>
        requires least { 2 ≤ capacity }
        requires most { capacity ≤ 2 ^ 30 }
        ensures blank { IfOk result (IsBlank memory_meaning) }
        ensures state { IfOk result (λ d. state_of d ≡ blank_state capacity []) }
    {
        MemDisk::with_faults(alloc, capacity, List::new(alloc))
    }

    /// A blank disk, of which the calls with these numbers fail, in any order. Its calls that answer a result are
    /// numbered from 1.
    pub fn with_faults(alloc: Global, capacity: u64, fails: List<u64>) -> Result<MemDisk, NoMemory>
        requires least { 2 ≤ capacity }
        requires most { capacity ≤ 2 ^ 30 }
        ensures blank { IfOk result (IsBlank memory_meaning) }
        ensures state { IfOk result (λ d. state_of d ≡ blank_state capacity fails) }
    {
        let store = Store::blank(alloc, capacity as usize)?;
        let panel = Panel::new(capacity);
        let schedule = Schedule { fails, calls: 0 };
        Ok(MemDisk {
            store,
            panel,
            schedule,
            writes: 0,
        })
    }

    /// How many writes and syncs were asked of the disk, whatever they answered: as far as 64 bits count.
    pub fn calls(&self) -> u64
        ensures { result ≡ (state_of self.now).writes }
    {
        self.writes
    }
}
