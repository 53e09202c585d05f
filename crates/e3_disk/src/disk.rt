// Disks by what a read gives and what a crash may leave.
ghost use Rattle.std.specs.Prelude.{◌≡◌, ◌+◌, ◌≤◌, ◌<◌, ◌^◌, true, length, take, drop, OnOk, OnErr, IfOk, IfErr, ◌≢◌, ◌↔◌, Err};
ghost use Rattle.e3_types.specs.declared.scenarios.Leave.{Leave};
ghost use Rattle.e3_disk.specs.Images.{Holds, Tears, Within, SameImages, Only, Untouched};
ghost use Rattle.e3_disk.specs.Meaning.{Meaning};
ghost use Rattle.e3_disk.specs.Meters.{IsCounted, Reads, Writes, armed, cut, lit};
ghost use Rattle.e3_disk.specs.Leaves.{code_of};
ghost use Rattle.e3_disk.specs.declared.fault.DiskFault.TheVariants.{Failed, Full};

use crate::DiskFault;
use e3_types::Leave;

/// A disk of bytes, any of whose calls may fail. What was written since the last sync may be torn by a crash.
pub trait Disk {
    /// What a read gives, what a crash now may leave, and its numbers.
    ghost meaning: { Meaning Self };

    /// How many bytes it can hold.
    fn capacity(&self) -> u64
        ensures value { result ≡ (meaning.meters self.now).capacity }
        ensures least { 2 ≤ result }
        ensures most { result ≤ 2 ^ 30 };

    /// How many bytes it holds.
    fn len(&mut self) -> Result<u64, DiskFault>
        ensures value { IfOk result (λ n. n ≡ length (meaning.content self.old)) }
        ensures within { IfOk result (λ n. n ≤ (meaning.meters self.old).capacity) }
        ensures same { OnOk result (meaning.content self.new ≡ meaning.content self.old) }
        ensures images { Within (meaning.image self.old) (meaning.image self.new) }
        ensures kept { OnOk result (Within (meaning.image self.new) (meaning.image self.old)) }
        ensures not_full { IfErr result (λ e. e ≡ Failed) }
        ensures meters { Reads (meaning.meters self.old) (meaning.meters self.new) result };

    /// Reads the bytes from a place on.
    fn read_at(&mut self, place: u64, into: &mut [u8]) -> Result<(), DiskFault>
        requires { place + length into.old ≤ length (meaning.content self.old) }
        ensures bytes { OnOk result (into.new ≡ take (length into.old) (drop place (meaning.content self.old))) }
        ensures same { OnOk result (meaning.content self.new ≡ meaning.content self.old) }
        ensures images { Within (meaning.image self.old) (meaning.image self.new) }
        ensures kept { OnOk result (Within (meaning.image self.new) (meaning.image self.old)) }
        ensures not_full { IfErr result (λ e. e ≡ Failed) }
        ensures meters { Reads (meaning.meters self.old) (meaning.meters self.new) result };

    /// Writes over what is there and past its end. It may be torn until the next sync, also where it fails.
    fn write_at(&mut self, place: u64, bytes: &[u8]) -> Result<(), DiskFault>
        requires { place ≤ length (meaning.content self.old) }
        ensures written { OnOk result (Holds (meaning.content self.old) place bytes.now (meaning.content self.new)) }
        ensures images { Tears place (length bytes.now) (meaning.image self.old) (meaning.image self.new) }
        ensures full { (meaning.meters self.old).capacity < place + length bytes.now ↔
            (result ≡ Err (Full (place + length bytes.now) (meaning.meters self.old).capacity)) }
        ensures only_full { IfErr result (λ e. e ≢ Failed → (meaning.meters self.old).capacity < place + length bytes.now) }
        ensures untouched { (meaning.meters self.old).capacity < place + length bytes.now → Untouched meaning self.old self.new }
        ensures meters { Writes (meaning.meters self.old) (meaning.meters self.new) result };

    /// Makes what a read gives the only image.
    fn sync(&mut self) -> Result<(), DiskFault>
        ensures durable { OnOk result (Only (meaning.content self.old) (meaning.image self.new)) }
        ensures same { OnOk result (meaning.content self.new ≡ meaning.content self.old) }
        ensures images { Within (meaning.image self.old) (meaning.image self.new) }
        ensures not_full { IfErr result (λ e. e ≡ Failed) }
        ensures meters { Writes (meaning.meters self.old) (meaning.meters self.new) result };

    /// A disk as it reads is one of its images.
    ghost reads_an_image: { (disk : Self) → meaning.image disk (meaning.content disk) };

    /// Each count is at most 2^64 - 1.
    ghost counted: { (disk : Self) → IsCounted (meaning.meters disk) };
}

/// A disk that can be stopped inside a call, cut from its power, and powered again.
pub trait Drill: Disk {
    /// From now on the `calls`-th write or sync while powered fails, and the power is off then. A write that is `Full` is
    /// not counted.
    fn arm(&mut self, calls: u32, leave: Leave)
        requires { 1 ≤ calls }
        ensures same { Self.meaning.content self.new ≡ Self.meaning.content self.old }
        ensures images { SameImages (Self.meaning.image self.old) (Self.meaning.image self.new) }
        ensures meters { Self.meaning.meters self.new ≡ armed (Self.meaning.meters self.old) calls (code_of leave) };

    /// Takes the power, which leaves one of the images.
    fn power_cut(&mut self)
        ensures left { Self.meaning.image self.old (Self.meaning.content self.new) }
        ensures images { Within (Self.meaning.image self.old) (Self.meaning.image self.new) }
        ensures meters { Self.meaning.meters self.new ≡ cut (Self.meaning.meters self.old) };

    /// Gives the power, which leaves one of the images, and changes nothing where it is on.
    fn power_on(&mut self)
        ensures left { Self.meaning.image self.old (Self.meaning.content self.new) }
        ensures images { Within (Self.meaning.image self.old) (Self.meaning.image self.new) }
        ensures same { (Self.meaning.meters self.old).powered ≡ true → Self.meaning.content self.new ≡ Self.meaning.content self.old }
        ensures kept { (Self.meaning.meters self.old).powered ≡ true → Within (Self.meaning.image self.new) (Self.meaning.image self.old) }
        ensures meters { Self.meaning.meters self.new ≡ lit (Self.meaning.meters self.old) };
}
