// Reading the regions of a disk.
ghost use Rattle.std.specs.Prelude.{◌≡◌, ◌+◌, ◌≤◌, ◌<◌, ◌↔◌, ◌⊎◌, Err, ℕ, length, take, drop, slice_index, IsTrue, IfOk, OnOk, IfErr};
ghost use Rattle.std.specs.Int.{w32, to_be_bytes};
ghost use Rattle.e3_log.specs.Found.{ReadsTo};
ghost use Rattle.e3_log.specs.Frames.{OPEN as OPEN_GATE, NoFrame, BrokenAt};
ghost use Rattle.e3_log.specs.Fronts.{FrontIs, told_by};
ghost use Rattle.e3_log.specs.Opening.{HeadIs, Looks, MayRead, NextIs};
ghost use Rattle.e3_log.specs.Regions.{window};

use crate::OpenCause;
use crate::commit::{OPEN, TURN};
use crate::region::Front;
use e3_disk::Disk;
use e3_types::List;
use std::alloc::Global;

/// A frame, by the place of the first byte of its body that is handed out.
#[derive(Drop)]
pub struct Frame {
    pub place: u64,
    pub body: List<u8>,
}

/// A range of a disk that is read by itself.
#[derive(Clone, Copy)]
pub struct Span {
    pub from: u64,
    pub count: u64,
}

// A place in a range.
#[derive(Clone, Copy)]
struct Spot {
    span: Span,
    at: u64,
}

/// What stands at a place: a closed gate, a frame whose body has this length, or neither.
#[derive(Clone, Copy)]
pub enum FrameHead {
    Shut,
    Whole { size: u64 },
    Broken,
}

// Reads bytes of a range, from a place on.
fn read_in<D: Disk>(disk: &mut D, spot: Spot, into: &mut [u8]) -> Result<(), OpenCause>
    requires within { spot.at + length into.old ≤ spot.span.count }
    requires may { MayRead D.meaning disk.old spot.span }
    ensures bytes { OnOk result (into.new ≡ take (length into.old) (drop spot.at (window spot.span.from spot.span.count (D.meaning.content disk.old)))) }
    ensures cause { IfErr result (λ e. e ≡ OpenCause.Failed) }
    ensures looks { Looks D.meaning disk.old disk.new result }
{
    disk.read_at(spot.span.from + spot.at, into)?;
    Ok(())
}

// Whether the gate at a place is open.
fn is_open<D: Disk>(disk: &mut D, spot: Spot) -> Result<bool, OpenCause>
    requires within { spot.at < spot.span.count }
    requires may { MayRead D.meaning disk.old spot.span }
    ensures gate { IfOk result (λ gate. IsTrue gate ↔ (slice_index (take 1 (drop spot.at (window spot.span.from spot.span.count (D.meaning.content disk.old)))) 0 ≡ OPEN_GATE)) }
    ensures cause { IfErr result (λ e. e ≡ OpenCause.Failed) }
    ensures looks { Looks D.meaning disk.old disk.new result }
{
    let mut gate = [0; 1];
    read_in(disk, spot, &mut gate)?;
    Ok(gate[0] == OPEN)
}

fn number_of(size: &[u8]) -> u32
    requires { length size.now ≡ 4 }
    ensures { to_be_bytes w32 result ≡ size.now }
{
    u32::from_be_bytes([size[0], size[1], size[2], size[3]])
}

// The length of a body, which stands behind its gate.
fn read_size<D: Disk>(disk: &mut D, spot: Spot) -> Result<u32, OpenCause>
    requires within { spot.at + 4 ≤ spot.span.count }
    requires may { MayRead D.meaning disk.old spot.span }
    ensures size { IfOk result (λ n. to_be_bytes w32 n ≡ take 4 (drop spot.at (window spot.span.from spot.span.count (D.meaning.content disk.old)))) }
    ensures cause { IfErr result (λ e. e ≡ OpenCause.Failed) }
    ensures looks { Looks D.meaning disk.old disk.new result }
{
    let mut size = [0; 4];
    read_in(disk, spot, &mut size)?;
    Ok(number_of(&size))
}

fn read_body<D: Disk>(
    alloc: Global,
    disk: &mut D,
    spot: Spot,
    len: u64,
) -> Result<List<u8>, OpenCause>
    requires within { spot.at + len ≤ spot.span.count }
    requires may { MayRead D.meaning disk.old spot.span }
    ensures body { IfOk result (λ body. body ≡ take len (drop spot.at (window spot.span.from spot.span.count (D.meaning.content disk.old)))) }
    ensures cause { IfErr result (λ e. (e ≡ OpenCause.Failed) ⊎ (e ≡ OpenCause.NoMemory)) }
    ensures looks { Looks D.meaning disk.old disk.new result }
{
    let mut body = vec![in alloc; 0; len as usize]?;
    read_in(disk, spot, body.as_mut_slice())?;
    Ok(List::from_vec(body))
}

// The generation that the first five bytes of a body tell, if they do.
fn told_in(head: &[u8]) -> Option<u32>
    requires { length head.now ≡ 5 }
    ensures { result ≡ told_by head.now }
{
    if head[0] == TURN {
        Some(u32::from_be_bytes([head[1], head[2], head[3], head[4]]))
    } else {
        None
    }
}

// The generation that the body at a place tells, if it does.
fn read_told<D: Disk>(disk: &mut D, spot: Spot, size: u64) -> Result<Option<u32>, OpenCause>
    requires within { spot.at + size ≤ spot.span.count }
    requires may { MayRead D.meaning disk.old spot.span }
    ensures told { IfOk result (λ told. told ≡ told_by (take size (drop spot.at (window spot.span.from spot.span.count (D.meaning.content disk.old))))) }
    ensures cause { IfErr result (λ e. e ≡ OpenCause.Failed) }
    ensures looks { Looks D.meaning disk.old disk.new result }
{
    if size < 5 {
        return Ok(None);
    }
    let mut head = [0; 5];
    read_in(disk, spot, &mut head)?;
    Ok(told_in(&head))
}

// What the bytes at a place are the head of.
fn read_head<D: Disk>(disk: &mut D, spot: Spot) -> Result<FrameHead, OpenCause>
    requires within { spot.at < spot.span.count }
    requires may { MayRead D.meaning disk.old spot.span }
    ensures head { IfOk result (HeadIs spot.span.count (window spot.span.from spot.span.count (D.meaning.content disk.old)) spot.at) }
    ensures cause { IfErr result (λ e. e ≡ OpenCause.Failed) }
    ensures looks { Looks D.meaning disk.old disk.new result }
{
    let Spot { span, at } = spot;
    if !is_open(disk, spot)? {
        return Ok(FrameHead::Shut);
    }
    if span.count - at < 5 {
        return Ok(FrameHead::Broken);
    }
    let size = u64::from(read_size(disk, Spot { span, at: at + 1 })?);
    if span.count - at - 5 < size {
        return Ok(FrameHead::Broken);
    }
    Ok(FrameHead::Whole { size })
}

/// How a range begins.
pub fn read_front<D: Disk>(disk: &mut D, span: Span) -> Result<Front, OpenCause>
    requires some { 0 < span.count }
    requires may { MayRead D.meaning disk.old span }
    ensures front { IfOk result (FrontIs (window span.from span.count (D.meaning.content disk.old))) }
    ensures cause { IfErr result (λ e. e ≡ OpenCause.Failed) }
    ensures looks { Looks D.meaning disk.old disk.new result }
{
    match read_head(disk, Spot { span, at: 0 })? {
        FrameHead::Shut => Ok(Front::Shut),
        FrameHead::Broken => Ok(Front::Broken),
        FrameHead::Whole { size } => {
            let told = read_told(disk, Spot { span, at: 5 }, size)?;
            Ok(Front::Whole { told })
        }
    }
}

// The body of the frame at a place, or nothing where a closed gate stands there.
fn read_frame<D: Disk>(
    alloc: Global,
    disk: &mut D,
    span: Span,
    at: u64,
) -> Result<Option<List<u8>>, OpenCause>
    requires within { at ≤ span.count }
    requires may { MayRead D.meaning disk.old span }
    ensures next { IfOk result (λ next. NextIs (window span.from span.count (D.meaning.content disk.old)) at next) }
    ensures damaged { (place : ℕ) → result ≡ Err (OpenCause.Damaged place) →
        (place ≡ span.from + at) × NoFrame (drop at (window span.from span.count (D.meaning.content disk.old))) }
    ensures looks { Looks D.meaning disk.old disk.new result }
{
    let place = span.from + at;
    if at == span.count {
        return Err(OpenCause::Damaged { at: place });
    }
    match read_head(disk, Spot { span, at })? {
        FrameHead::Shut => Ok(None),
        FrameHead::Broken => Err(OpenCause::Damaged { at: place }),
        FrameHead::Whole { size } => {
            let body = read_body(alloc, disk, Spot { span, at: at + 5 }, size)?;
            Ok(Some(body))
        }
    }
}

/// The frames of a range up to the closed gate, and the place of that in the range.
pub fn read_frames<D: Disk>(
    alloc: Global,
    disk: &mut D,
    span: Span,
) -> Result<(List<Frame>, u64), OpenCause>
    requires { MayRead D.meaning disk.old span }
    ensures frames { IfOk result (λ r. ReadsTo span.from (window span.from span.count (D.meaning.content disk.old)) r.0 r.1) }
    ensures damaged { (place : ℕ) → result ≡ Err (OpenCause.Damaged place) →
        (at : ℕ) × (place ≡ span.from + at) × BrokenAt (window span.from span.count (D.meaning.content disk.old)) at }
    ensures looks { Looks D.meaning disk.old disk.new result }
{
    let mut frames = List::new(alloc);
    let mut at = 0;
    'reading: while let Some(body) = read_frame(alloc, disk, span, at)? {
        let place = span.from + at + 5;
        at = at + 5 + body.len();
        frames.push(Frame { place, body })?;
    }
    Ok((frames, at))
}
