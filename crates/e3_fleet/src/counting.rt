// Laws of disks.
ghost use Rattle.std.specs.Prelude.{◌≡◌, ◌≤◌, ℕ, Some, slice_get};
ghost use Rattle.e3_disk.specs.Meters.{IsCounted};

use e3_disk::Disk;

/// Each count of a disk has a last value.
pub(crate) fn disks_are_counted<D: Disk>()
    ensures { (disk : D) → IsCounted (D.meaning.meters disk) }
{}

/// Each of these disks has room for a gate in both halves, as it says itself.
pub(crate) fn have_halves<D: Disk>(disks: &[D])
    ensures { (at : ℕ) (disk : D) → slice_get disks.now at ≡ Some disk → 2 ≤ (D.meaning.meters disk).capacity }
{
    for disk in disks {
        let _capacity = disk.capacity();
    }
}
