// Disks in memory for all sites of a run.
ghost use Rattle.std.specs.Prelude.{◌≡◌, ◌≢◌, ◌≤◌, ◌<◌, ◌^◌, ◌++◌, ◌∷◌, [], ℕ, suc, List as Items, Some, true, false, length, IfOk, OnOk};
ghost use Rattle.e3_disk.specs.Memory.{blank_state, state_of};
ghost use Rattle.e3_fleet.specs.MemoryDisks.{AreMade};
ghost use Rattle.e3_fleet.specs.Over.{AreBlank, IsFresh};

use e3_disk::{Disk, MemDisk};
use e3_types::{List, NoMemory};
use std::alloc::Global;

// A blank disk in memory of this capacity.
fn blank_disk(alloc: Global, capacity: u64, fails: List<u64>) -> Result<MemDisk, NoMemory>
    requires least { 2 ≤ capacity }
    requires most { capacity ≤ 2 ^ 30 }
    ensures fresh { IfOk result (λ disk. IsFresh ⟦<MemDisk as Disk>⟧.meaning disk) }
    ensures state { IfOk result (λ disk. state_of disk ≡ blank_state capacity fails) }
{
    MemDisk::with_faults(alloc, capacity, fails)
}

// The calls that fail of the disk of a site, which are taken where it is the one site.
fn fails_at(alloc: Global, site: u32, the_one: u32, fails: &mut Option<List<u64>>) -> List<u64>
    ensures its { (listed : Items ℕ) → site ≡ the_one → fails.old ≡ Some listed → result ≡ listed }
    ensures other { site ≢ the_one → (result ≡ []) × (fails.new ≡ fails.old) }
{
    if site != the_one {
        return List::new(alloc);
    }
    fails.take().unwrap_or(List::new(alloc))
}

/// Sixteen blank disks in memory of this capacity, that of site 1 first. The calls of these numbers of the disk of one site
/// fail, counted from 1; where there is no such site none fails. Want of memory is the only error.
pub fn memory_disks(
    alloc: Global,
    capacity: u64,
    site: u32,
    fails: List<u64>,
) -> Result<Vec<MemDisk>, NoMemory>
    requires least { 2 ≤ capacity }
    requires most { capacity ≤ 2 ^ 30 }
    ensures sixteen { IfOk result (λ disks. length disks.items ≡ 16) }
    ensures blank { IfOk result (λ disks. AreBlank ⟦<MemDisk as Disk>⟧.meaning disks.items) }
    ensures made { IfOk result (λ disks. AreMade capacity site fails disks.items) }
{
    let mut disks = List::new(alloc);
    let mut fails = Some(fails);
    for at in 0..16u32 {
        let listed = fails_at(alloc, at + 1, site, &mut fails);
        disks.push(blank_disk(alloc, capacity, listed)?)?;
    }
    Ok(disks.into_vec())
}
