// A log of frames in two regions of a disk.
ghost use Rattle.std.specs.Prelude.{◌≡◌, ◌≢◌, ◌+◌, ◌≤◌, ◌<◌, ◌^◌, ◌++◌, ◌∷◌, [], ◌⊎◌, ◌↔◌, true, false, Ok, Err, List as Items, ℕ, length, slice_index, IsTrue, OnOk, IfOk, IfErr, IsErrOf, MatchResult};
ghost use Rattle.e3_disk.specs.Images.{Within, SameImages, Only, overwritten};
ghost use Rattle.e3_disk.specs.Leaves.{code_of};
ghost use Rattle.e3_disk.specs.Meters.{HasFailed, Keeps, armed};
ghost use Rattle.e3_log.specs.Frames.{OPEN};
ghost use Rattle.e3_log.specs.Fronts.{TURN as TURN_TAG, turned};
ghost use Rattle.e3_log.specs.Found.{Opened, bodies_of};
ghost use Rattle.e3_log.specs.Opening.{TakesCalls, TakesOne, StaysOff, StaysOn};
ghost use Rattle.e3_log.specs.Reading.{ReadsAs, DamagedAt};
ghost use Rattle.e3_log.specs.Regions.{limit, other, start};
ghost use Rattle.e3_log.specs.Stands.{EachReadsAs, Stands, staged};

use crate::commit::{commit, put_staged, put_turned, shut_gate};
use crate::open::Frame;
use crate::prepare::prepare;
use crate::region::Region;
use crate::{AppendFault, OpenCause, TurnFault};
use e3_disk::{Disk, Drill};
use e3_types::{Leave, List};
use std::alloc::Global;
use std::marker::Model;

/// A log of frames in two regions of a disk, one of which counts. It has all its memory from the start.
#[derive(Drop)]
pub struct Log<D: Disk> {
    disk: D,
    // the region that counts, and how many times the log was turned
    region: Region,
    generation: u32,
    // the place of the closed gate
    end: u64,
    // the gate of the other region is open
    spare_open: bool,
    // a call of this log has failed
    failed: bool,
    stage: Vec<u8>,
}

impl<D: Disk> Model for Log<D> {
    ghost use Rattle.std.specs.Prelude.{◌≡◌, ◌<◌, ◌≤◌, ◌-◌, ◌^◌, false, true, length, vec_capacity};
    ghost use Rattle.e3_log.specs.Regions.{half, limit, start};
    ghost use Rattle.e3_log.specs.Stands.{LogState};

    ghost Value = { LogState D };

    ghost view = { λ l. record { disk = l.disk; region = l.region; generation = l.generation; end = l.end; spare_open = l.spare_open; failed = l.failed } };

    ghost invariant = { λ l. (l.failed ≡ false → l.end < length (D.meaning.content l.disk))
        × (l.failed ≡ false → half (D.meaning.meters l.disk).capacity < length (D.meaning.content l.disk))
        × (l.failed ≡ false → l.end < limit (D.meaning.meters l.disk).capacity l.region)
        × (l.failed ≡ false → start (D.meaning.meters l.disk).capacity l.region ≤ l.end)
        × (l.failed ≡ false → (D.meaning.meters l.disk).powered ≡ true)
        × (l.end ≤ 2 ^ 30) × ((D.meaning.meters l.disk).capacity - half (D.meaning.meters l.disk).capacity ≤ vec_capacity l.stage) };
}

/// A disk that could not be opened, and why.
#[derive(Drop)]
pub struct OpenRefused<D> {
    pub disk: D,
    pub cause: OpenCause,
}

impl<D: Disk> Log<D> {
    /// Begins with one sync, finds the region that counts, and reads its frames.
    pub fn open(alloc: Global, mut disk: D) -> Result<(Log<D>, List<Frame>), OpenRefused<D>>
        ensures opened { IfOk result (λ r. Opened D.meaning r.1 r.0) }
        ensures again { (generation : ℕ) (bodies : Items (Items ℕ)) → ReadsAs (D.meaning.meters disk).capacity generation bodies (D.meaning.content disk) →
            IfOk result (λ r. (bodies_of r.1 ≡ bodies) × (r.0.generation ≡ generation)) }

        // however it ends, each image was one before the call; what is read stays, and is durable, unless the disk failed
        ensures images { MatchResult result (λ r. Within (D.meaning.image disk) (D.meaning.image r.0.disk)) (λ e. Within (D.meaning.image disk) (D.meaning.image e.disk)) }
        ensures same { MatchResult result (λ r. D.meaning.content r.0.disk ≡ D.meaning.content disk) (λ e. e.cause ≢ OpenCause.Failed → D.meaning.content e.disk ≡ D.meaning.content disk) }
        ensures durable { IfErr result (λ e. e.cause ≢ OpenCause.Failed → Only (D.meaning.content disk) (D.meaning.image e.disk)) }

        // it fails only where the disk's count rose or its power was off, and with the power off it fails and counts nothing
        ensures failed { IfErr result (λ e. e.cause ≡ OpenCause.Failed → (D.meaning.meters disk).powered ≡ true → HasFailed (D.meaning.meters disk).faults (D.meaning.meters e.disk).faults) }
        ensures unpowered { (D.meaning.meters disk).powered ≡ false → MatchResult result (λ _. ⊥)
            (λ e. (e.cause ≡ OpenCause.Failed) × StaysOff (D.meaning.meters disk) (D.meaning.meters e.disk)) }

        // it is damaged exactly where the bytes are, and never where they read as bodies
        ensures damaged { (at : ℕ) → IfErr result (λ e. e.cause ≡ OpenCause.Damaged at → DamagedAt (D.meaning.meters disk).capacity (D.meaning.content disk) at) }
        ensures only_damaged { (at : ℕ) → DamagedAt (D.meaning.meters disk).capacity (D.meaning.content disk) at → MatchResult result (λ _. ⊥) (λ e.
            (e.cause ≡ OpenCause.Damaged at) ⊎ (e.cause ≡ OpenCause.Failed) ⊎ (e.cause ≡ OpenCause.NoMemory)) }
        ensures whole { (generation : ℕ) (bodies : Items (Items ℕ)) → ReadsAs (D.meaning.meters disk).capacity generation bodies (D.meaning.content disk) →
            (at : ℕ) → IfErr result (λ e. e.cause ≡ OpenCause.Damaged at → ⊥) }

        // it neither arms nor cuts the disk, and unless that failed it takes one call from an arm, and the power stays on
        ensures keeps { MatchResult result (λ r. Keeps (D.meaning.meters disk) (D.meaning.meters r.0.disk)) (λ e. Keeps (D.meaning.meters disk) (D.meaning.meters e.disk)) }
        ensures calls { MatchResult result (λ r. TakesOne (D.meaning.meters disk) (D.meaning.meters r.0.disk))
            (λ e. e.cause ≢ OpenCause.Failed → TakesOne (D.meaning.meters disk) (D.meaning.meters e.disk)) }
        ensures power { MatchResult result (λ r. StaysOn (D.meaning.meters disk) (D.meaning.meters r.0.disk))
            (λ e. e.cause ≢ OpenCause.Failed → StaysOn (D.meaning.meters disk) (D.meaning.meters e.disk)) }
    {
        match prepare(alloc, &mut disk) {
            Ok((held, stage)) => Ok((
                Log {
                    disk,
                    region: held.region,
                    generation: held.generation,
                    end: held.end,
                    spare_open: held.spare_open,
                    failed: false,
                    stage,
                },
                held.frames,
            )),
            Err(cause) => Err(OpenRefused { disk, cause }),
        }
    }

    /// The disk. What the log stood for is read from it again by `open`.
    pub fn into_disk(self) -> D
        ensures { result ≡ self.disk }
    {
        self.disk
    }

    /// The generation of the region that counts.
    pub fn generation(&self) -> u32
        ensures { result ≡ self.now.generation }
    {
        self.generation
    }

    /// A frame with a body of this length ends in the region that counts. It takes no memory and makes no disk call.
    pub fn fits(&self, length: u64) -> bool
        ensures { IsTrue result ↔ (self.now.end + 6 + length ≤ limit (D.meaning.meters self.now.disk).capacity self.now.region) }
    {
        let room = self.region.limit(self.disk.capacity());
        self.end + 6 <= room && length <= room - self.end - 6
    }

    /// Adds a frame by four calls of the disk. It is there whole or not at all, however the call ends: a stop inside one of
    /// the four is a call that fails, and any of them may.
    pub fn append(&mut self, body: &[u8]) -> Result<(), AppendFault>
        requires some { 0 < length body.now }
        requires untagged { slice_index body.now 0 ≢ TURN_TAG }
        // with Ok the log stands for one body more, in the same region
        ensures stands { (bodies : Items (Items ℕ)) → Stands D.meaning bodies self.old →
            OnOk result (Stands D.meaning (bodies ++ body.now ∷ []) self.new) }
        ensures log { (self.new.region ≡ self.old.region) × (self.new.generation ≡ self.old.generation) × (self.new.spare_open ≡ self.old.spare_open) }
        ensures end { OnOk result (self.new.end ≡ self.old.end + 5 + length body.now) }

        // with Ok the length, the body and a closed gate 00 stand behind the old gate, which is open
        ensures written { OnOk result (D.meaning.content self.new.disk ≡
            overwritten (overwritten (D.meaning.content self.old.disk) (self.old.end + 1) (staged body.now)) self.old.end (OPEN ∷ [])) }

        // however it ends, each image reads as before or with the whole new frame
        ensures images { (bodies : Items (Items ℕ)) → Stands D.meaning bodies self.old →
            EachReadsAs (D.meaning.meters self.old.disk).capacity self.old.generation bodies self.old.generation (bodies ++ body.now ∷ []) (D.meaning.image self.new.disk) }

        // a failure is kept exactly from a Failed on, and nothing is touched then
        ensures failure { self.new.failed ≡ true ↔ IsErrOf result AppendFault.Failed }
        ensures kept { self.old.failed ≡ true → (result ≡ Err AppendFault.Failed) × (self.new ≡ self.old) }
        ensures cause { IsErrOf result AppendFault.Failed → self.old.failed ≡ false → HasFailed (D.meaning.meters self.old.disk).faults (D.meaning.meters self.new.disk).faults }

        // it is full exactly where the frame passes the end of the region, and nothing is written then
        ensures full { self.old.failed ≡ false → limit (D.meaning.meters self.old.disk).capacity self.old.region < self.old.end + 6 + length body.now →
            result ≡ Err (AppendFault.Full (self.old.end + 6 + length body.now) (limit (D.meaning.meters self.old.disk).capacity self.old.region)) }
        ensures only_full { (need room : ℕ) → result ≡ Err (AppendFault.Full need room) →
            (limit (D.meaning.meters self.old.disk).capacity self.old.region < self.old.end + 6 + length body.now)
            × (need ≡ self.old.end + 6 + length body.now) × (room ≡ limit (D.meaning.meters self.old.disk).capacity self.old.region) × (self.new ≡ self.old) }

        // with Ok it takes four calls from an armed disk, and it neither arms nor cuts it
        ensures keeps { Keeps (D.meaning.meters self.old.disk) (D.meaning.meters self.new.disk) }
        ensures calls { OnOk result (TakesCalls 4 (D.meaning.meters self.old.disk) (D.meaning.meters self.new.disk)) }
        ensures power { OnOk result (StaysOn (D.meaning.meters self.old.disk) (D.meaning.meters self.new.disk)) }
    {
        if self.failed {
            return Err(AppendFault::Failed);
        }
        let room = self.region.limit(self.disk.capacity());
        let need = self.end + 6 + body.len() as u64;
        if need > room {
            return Err(AppendFault::Full { need, room });
        }
        put_staged(&mut self.stage, body);
        match commit(&mut self.disk, self.end, &self.stage) {
            Ok(()) => {
                self.end += 5 + body.len() as u64;
                Ok(())
            }
            Err(_) => {
                self.failed = true;
                Err(AppendFault::Failed)
            }
        }
    }

    /// Closes the gate of the other region, where that is open, by one write and one sync; else it makes no disk call. It is
    /// never full.
    pub fn clear(&mut self) -> Result<(), AppendFault>
        // with Ok the log stands for the same bodies, and the other region is closed
        ensures stands { (bodies : Items (Items ℕ)) → Stands D.meaning bodies self.old →
            OnOk result (Stands D.meaning bodies self.new) }
        ensures shut { OnOk result (self.new.spare_open ≡ false) }
        ensures log { (self.new.region ≡ self.old.region) × (self.new.generation ≡ self.old.generation) × (self.new.end ≡ self.old.end) }
        ensures idle { self.old.failed ≡ false → self.old.spare_open ≡ false → (result ≡ Ok tt) × (self.new ≡ self.old) }

        // however it ends, each image reads as before
        ensures images { (bodies : Items (Items ℕ)) → Stands D.meaning bodies self.old →
            (c : Items ℕ) → D.meaning.image self.new.disk c → ReadsAs (D.meaning.meters self.old.disk).capacity self.old.generation bodies c }

        // its only error is Failed, which it answers as `append` does
        ensures error { IfErr result (λ e. e ≡ AppendFault.Failed) }
        ensures failure { self.new.failed ≡ true ↔ IsErrOf result AppendFault.Failed }
        ensures kept { self.old.failed ≡ true → (result ≡ Err AppendFault.Failed) × (self.new ≡ self.old) }
        ensures cause { IsErrOf result AppendFault.Failed → self.old.failed ≡ false → HasFailed (D.meaning.meters self.old.disk).faults (D.meaning.meters self.new.disk).faults }

        // with Ok it takes two calls from an armed disk where it closes a gate, and it neither arms nor cuts it
        ensures keeps { Keeps (D.meaning.meters self.old.disk) (D.meaning.meters self.new.disk) }
        ensures calls { self.old.spare_open ≡ true → OnOk result (TakesCalls 2 (D.meaning.meters self.old.disk) (D.meaning.meters self.new.disk)) }
        ensures power { OnOk result (StaysOn (D.meaning.meters self.old.disk) (D.meaning.meters self.new.disk)) }
    {
        if self.failed {
            return Err(AppendFault::Failed);
        }
        if !self.spare_open {
            return Ok(());
        }
        let place = self.region.other().start(self.disk.capacity());
        match shut_gate(&mut self.disk, place) {
            Ok(()) => {
                self.spare_open = false;
                Ok(())
            }
            Err(_) => {
                self.failed = true;
                Err(AppendFault::Failed)
            }
        }
    }

    /// Writes the first frame of the other region, by four calls of the disk, and that region counts from then on. However the
    /// call ends, the log is as before or has this body alone.
    pub fn turn(&mut self, body: &[u8]) -> Result<(), TurnFault>
        requires some { 0 < length body.now }
        requires shut { self.old.spare_open ≡ false }
        requires next { self.old.generation < 4294967295 }
        // with Ok the log stands for this body alone, in the other region and the next generation
        ensures stands { (bodies : Items (Items ℕ)) → Stands D.meaning bodies self.old →
            OnOk result (Stands D.meaning (body.now ∷ []) self.new) }
        ensures log { OnOk result ((self.new.region ≡ other self.old.region) × (self.new.generation ≡ self.old.generation + 1)) }
        ensures end { OnOk result (self.new.end ≡ start (D.meaning.meters self.old.disk).capacity (other self.old.region) + 10 + length body.now) }
        ensures written { OnOk result (D.meaning.content self.new.disk ≡
            overwritten (overwritten (D.meaning.content self.old.disk) (start (D.meaning.meters self.old.disk).capacity (other self.old.region) + 1)
            (staged (turned (self.old.generation + 1) body.now))) (start (D.meaning.meters self.old.disk).capacity (other self.old.region)) (OPEN ∷ [])) }

        // however it ends, each image reads as before or as this body alone
        ensures images { (bodies : Items (Items ℕ)) → Stands D.meaning bodies self.old →
            EachReadsAs (D.meaning.meters self.old.disk).capacity self.old.generation bodies (self.old.generation + 1) (body.now ∷ []) (D.meaning.image self.new.disk) }

        // a failure is kept exactly from a Failed on, and nothing is touched then
        ensures failure { self.new.failed ≡ true ↔ IsErrOf result TurnFault.Failed }
        ensures kept { self.old.failed ≡ true → (result ≡ Err TurnFault.Failed) × (self.new ≡ self.old) }
        ensures cause { IsErrOf result TurnFault.Failed → self.old.failed ≡ false → HasFailed (D.meaning.meters self.old.disk).faults (D.meaning.meters self.new.disk).faults }

        // it is full exactly where the frame passes the end of the other region, and nothing is written then
        ensures full { self.old.failed ≡ false →
            limit (D.meaning.meters self.old.disk).capacity (other self.old.region) < start (D.meaning.meters self.old.disk).capacity (other self.old.region) + 11 + length body.now →
            result ≡ Err (TurnFault.Full (start (D.meaning.meters self.old.disk).capacity (other self.old.region) + 11 + length body.now)
            (limit (D.meaning.meters self.old.disk).capacity (other self.old.region))) }
        ensures only_full { (need room : ℕ) → result ≡ Err (TurnFault.Full need room) →
            (limit (D.meaning.meters self.old.disk).capacity (other self.old.region) < start (D.meaning.meters self.old.disk).capacity (other self.old.region) + 11 + length body.now)
            × (need ≡ start (D.meaning.meters self.old.disk).capacity (other self.old.region) + 11 + length body.now)
            × (room ≡ limit (D.meaning.meters self.old.disk).capacity (other self.old.region)) × (self.new ≡ self.old) }
        ensures memory { IsErrOf result TurnFault.NoMemory → ⊥ }

        // with Ok it takes four calls from an armed disk, and it neither arms nor cuts it
        ensures keeps { Keeps (D.meaning.meters self.old.disk) (D.meaning.meters self.new.disk) }
        ensures calls { OnOk result (TakesCalls 4 (D.meaning.meters self.old.disk) (D.meaning.meters self.new.disk)) }
        ensures power { OnOk result (StaysOn (D.meaning.meters self.old.disk) (D.meaning.meters self.new.disk)) }
    {
        if self.failed {
            return Err(TurnFault::Failed);
        }
        let capacity = self.disk.capacity();
        let region = self.region.other();
        let place = region.start(capacity);
        let room = region.limit(capacity);
        let need = place + 11 + body.len() as u64;
        if need > room {
            return Err(TurnFault::Full { need, room });
        }
        put_turned(&mut self.stage, self.generation + 1, body);
        match commit(&mut self.disk, place, &self.stage) {
            Ok(()) => {
                self.spare_open = self.end > self.region.start(capacity);
                self.region = region;
                self.generation += 1;
                self.end = place + 10 + body.len() as u64;
                Ok(())
            }
            Err(_) => {
                self.failed = true;
                Err(TurnFault::Failed)
            }
        }
    }
}

impl<D: Drill> Log<D> {
    /// Arms the disk, once; the frames stay.
    pub fn arm(&mut self, calls: u32, leave: Leave)
        requires { 1 ≤ calls }
        ensures stands { (bodies : Items (Items ℕ)) → Stands D.meaning bodies self.old → Stands D.meaning bodies self.new }
        ensures log { self.new ≡ record self.old { disk = self.new.disk } }
        ensures content { D.meaning.content self.new.disk ≡ D.meaning.content self.old.disk }
        ensures images { SameImages (D.meaning.image self.old.disk) (D.meaning.image self.new.disk) }
        ensures meters { D.meaning.meters self.new.disk ≡ armed (D.meaning.meters self.old.disk) calls (code_of leave) }
    {
        self.disk.arm(calls, leave);
    }
}
