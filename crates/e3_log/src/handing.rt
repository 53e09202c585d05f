// What is handed out of the frames of a region.
ghost use Rattle.std.specs.Prelude.{◌≡◌, ◌+◌, ◌<◌, ◌≤◌, ◌^◌, ◌∷◌, List as Items, length, drop, IfOk};
ghost use Rattle.e3_log.specs.declared.open.Frame.{Frame as SomeFrame};

use crate::open::Frame;
use e3_types::{List, NoMemory};
use std::alloc::Global;

fn behind_head(alloc: Global, frame: &Frame) -> Result<List<u8>, NoMemory>
    requires { 5 ≤ length frame.now.body }
    ensures { IfOk result (λ body. body ≡ drop 5 frame.now.body) }
{
    let mut body = List::new(alloc);
    body.extend(&frame.body.as_slice()[5..])?;
    Ok(body)
}

/// The frames from a place on, of which the first is handed out without the five bytes that tell its generation.
pub fn without_head(alloc: Global, from: u64, frames: List<Frame>) -> Result<List<Frame>, NoMemory>
    requires some { 0 < length frames }
    requires head { (first : SomeFrame) (more : Items SomeFrame) → frames ≡ first ∷ more → 5 ≤ length first.body }
    requires bound { from ≤ 2 ^ 30 }
    ensures { (first : SomeFrame) (more : Items SomeFrame) → frames ≡ first ∷ more →
        IfOk result (λ out. out ≡ (record { place = from + 10; body = drop 5 first.body }) ∷ more) }
{
    let mut all = frames.into_vec();
    let body = behind_head(alloc, &all[0])?;
    all[0] = Frame {
        place: from + 10,
        body,
    };
    Ok(List::from_vec(all))
}
