// Finding the region that counts, and its frames.
ghost use Rattle.std.specs.Prelude.{◌≡◌, ◌+◌, ◌-◌, ◌≤◌, ◌<◌, ◌^◌, Err, List as Items, ℕ, length, vec_capacity, IfOk, IfErr, IsErrOf};
ghost use Rattle.e3_disk.specs.Images.{Within, Only};
ghost use Rattle.e3_disk.specs.Meters.{Keeps, Failing, Passing};
ghost use Rattle.e3_log.specs.Found.{EndsInside, IsHeld, IsRaw, handed_frames};
ghost use Rattle.e3_log.specs.Fronts.{active_of, own_of};
ghost use Rattle.e3_log.specs.Opening.{HoldsSoMany, Looks, TakesOne};
ghost use Rattle.e3_log.specs.Reading.{DamagedAt, HasBadFrame, HasFronts};
ghost use Rattle.e3_log.specs.Regions.{half, piece, start, window};

use crate::OpenCause;
use crate::handing::without_head;
use crate::open::{Frame, Span, read_frames, read_front};
use crate::region::{Found, Front, Region, active_of, half};
use e3_disk::Disk;
use e3_types::{List, NoMemory};
use std::alloc::Global;

/// What was read of a disk: the region that counts, its generation, the frames that it hands out, the place of its closed
/// gate, and whether the gate of the other region is open.
#[derive(Drop)]
pub struct Held {
    pub region: Region,
    pub generation: u32,
    pub frames: List<Frame>,
    pub end: u64,
    pub spare_open: bool,
}

// The range of a disk that a region has, where the disk holds so many bytes.
fn span_of(region: Region, capacity: u64, len: u64) -> Span
    requires whole { half capacity < len }
    requires within { len ≤ capacity }
    requires least { 2 ≤ capacity }
    ensures bytes { (bytes : Items ℕ) → length bytes ≡ len → window result.from result.count bytes ≡ piece capacity region bytes }
    ensures from { result.from ≡ start capacity region }
    ensures within { result.from + result.count ≤ len }
    ensures some { 0 < result.count }
{
    let from = region.start(capacity);
    let count = match region {
        Region::First => half(capacity),
        Region::Second => len - half(capacity),
    };
    Span { from, count }
}

// How both regions begin.
fn read_fronts<D: Disk>(disk: &mut D, capacity: u64, len: u64) -> Result<(Front, Front), OpenCause>
    requires holds { HoldsSoMany D.meaning disk.old capacity len }
    requires whole { half capacity < len }
    ensures fronts { IfOk result (λ r. HasFronts capacity (D.meaning.content disk.old) r.0 r.1) }
    ensures cause { IfErr result (λ e. e ≡ OpenCause.Failed) }
    ensures looks { Looks D.meaning disk.old disk.new result }
{
    let first = read_front(disk, span_of(Region::First, capacity, len))?;
    let second = read_front(disk, span_of(Region::Second, capacity, len))?;
    Ok((first, second))
}

// The frames as they are handed out: the first without its five bytes, where it tells a generation.
fn hand_out(
    alloc: Global,
    from: u64,
    frames: List<Frame>,
    region_front: Front,
) -> Result<List<Frame>, NoMemory>
    requires raw { IsRaw from region_front frames }
    requires bound { from ≤ 2 ^ 30 }
    ensures { IfOk result (λ out. out ≡ handed_frames frames) }
{
    if region_front.is_told() {
        without_head(alloc, from, frames)
    } else {
        Ok(frames)
    }
}

// How a region begins, of the two.
fn own_of(region: Region, fronts: (Front, Front)) -> Front
    ensures { result ≡ own_of region fronts.0 fronts.1 }
{
    match region {
        Region::First => fronts.0,
        Region::Second => fronts.1,
    }
}

// The frames of the region that counts.
fn read_region<D: Disk>(
    alloc: Global,
    disk: &mut D,
    capacity: u64,
    len: u64,
    region: Region,
    generation: u32,
    fronts: (Front, Front),
) -> Result<Held, OpenCause>
    requires holds { HoldsSoMany D.meaning disk.old capacity len }
    requires fronts { HasFronts capacity (D.meaning.content disk.old) fronts.0 fronts.1 }
    requires found { active_of fronts.0 fronts.1 ≡ Found.Active region generation }
    ensures held { IfOk result (IsHeld capacity (D.meaning.content disk.old)) }
    ensures end { IfOk result (EndsInside capacity (D.meaning.content disk.old)) }
    ensures damaged { (place : ℕ) → result ≡ Err (OpenCause.Damaged place) → HasBadFrame capacity (D.meaning.content disk.old) place }
    ensures looks { Looks D.meaning disk.old disk.new result }
{
    let start = region.start(capacity);
    let (found, end) = read_frames(alloc, disk, span_of(region, capacity, len))?;
    let frames = hand_out(alloc, start, found, own_of(region, fronts))?;
    Ok(Held {
        region,
        generation,
        frames,
        end: start + end,
        spare_open: own_of(region.other(), fronts).is_open(),
    })
}

// The regions of a disk that holds so many bytes.
fn read_regions<D: Disk>(
    alloc: Global,
    disk: &mut D,
    capacity: u64,
    len: u64,
) -> Result<Held, OpenCause>
    requires { HoldsSoMany D.meaning disk.old capacity len }
    ensures held { IfOk result (IsHeld capacity (D.meaning.content disk.old)) }
    ensures end { IfOk result (EndsInside capacity (D.meaning.content disk.old)) }
    ensures whole { IfOk result (λ h. half capacity < length (D.meaning.content disk.old)) }
    ensures damaged { (place : ℕ) → result ≡ Err (OpenCause.Damaged place) → DamagedAt capacity (D.meaning.content disk.old) place }
    ensures looks { Looks D.meaning disk.old disk.new result }
{
    if len <= half(capacity) {
        return Err(OpenCause::Damaged { at: len });
    }
    let fronts = read_fronts(disk, capacity, len)?;
    match active_of(fronts.0, fronts.1) {
        Found::Active { region, generation } => {
            read_region(alloc, disk, capacity, len, region, generation, fronts)
        }
        Found::Damaged { region } => Err(OpenCause::Damaged {
            at: region.start(capacity),
        }),
    }
}

/// Makes the disk durable, reads its regions, and takes room for the largest frame.
pub fn prepare<D: Disk>(alloc: Global, disk: &mut D) -> Result<(Held, Vec<u8>), OpenCause>
    ensures held { IfOk result (λ r. IsHeld (D.meaning.meters disk.old).capacity (D.meaning.content disk.old) r.0) }
    ensures end { IfOk result (λ r. EndsInside (D.meaning.meters disk.old).capacity (D.meaning.content disk.old) r.0) }
    ensures whole { IfOk result (λ r. half (D.meaning.meters disk.old).capacity < length (D.meaning.content disk.old)) }
    ensures bound { IfOk result (λ r. r.0.end ≤ 2 ^ 30) }
    ensures room { IfOk result (λ r. (D.meaning.meters disk.old).capacity - half (D.meaning.meters disk.old).capacity ≤ vec_capacity r.1) }
    ensures same { (IsErrOf result OpenCause.Failed → ⊥) → D.meaning.content disk.new ≡ D.meaning.content disk.old }
    ensures damaged { (at : ℕ) → result ≡ Err (OpenCause.Damaged at) → DamagedAt (D.meaning.meters disk.old).capacity (D.meaning.content disk.old) at }
    ensures images { Within (D.meaning.image disk.old) (D.meaning.image disk.new) }
    ensures failed { IsErrOf result OpenCause.Failed → Failing (D.meaning.meters disk.old) (D.meaning.meters disk.new) }
    ensures keeps { Keeps (D.meaning.meters disk.old) (D.meaning.meters disk.new) }
    ensures calls { (IsErrOf result OpenCause.Failed → ⊥) → TakesOne (D.meaning.meters disk.old) (D.meaning.meters disk.new) }
    ensures power { (IsErrOf result OpenCause.Failed → ⊥) → Passing (D.meaning.meters disk.old) (D.meaning.meters disk.new) }
    ensures durable { (IsErrOf result OpenCause.Failed → ⊥) → Only (D.meaning.content disk.old) (D.meaning.image disk.new) }
{
    disk.sync()?;
    let len = disk.len()?;
    let capacity = disk.capacity();
    let stage = Vec::with_capacity(alloc, Region::Second.size(capacity) as usize)?;
    match read_regions(alloc, disk, capacity, len) {
        Ok(held) => Ok((held, stage)),
        Err(cause) => Err(cause),
    }
}
