// The step of a site of the definitions, over a past that is read anew each time.
ghost use Rattle.std.specs.Prelude.{◌≡◌, ◌<◌, IfOk, length};
ghost use Rattle.e3_world.specs.Lives.{life_of};
ghost use Rattle.e3_world.specs.Moves.{unnumbered_input};
ghost use Rattle.e3_world.specs.Steps.{step_of};

use crate::plain::anew::Anew;
use crate::plain::packets::unnumbered_input;
use crate::step_at;
use e3_readings::life_of;
use e3_types::{Input, List, NoMemory, Record};
use e3_world::{At, Made, SiteStep};
use std::alloc::Global;

// The place of a step, with copies of what it is read off.
fn place_of(
    alloc: Global,
    weights: &[u32],
    site: u32,
    rose: &[Record],
    since: &[SiteStep],
    input: &Input,
) -> Result<At, NoMemory>
    ensures { IfOk result (λ a. a ≡ record { weights = weights.now; site = site; life = life_of (record { rose = rose.now; since = since.now }); input = unnumbered_input input.now }) }
{
    let mut copied = List::new(alloc);
    copied.extend(weights)?;
    Ok(At {
        weights: copied,
        site,
        life: life_of(alloc, rose, since)?,
        input: unnumbered_input(input),
    })
}

/// What an input makes a site do that rose with this log, the records of the rise among it, and made these steps since,
/// the oldest first. The weights are those of all sites, that of site 1 first. The packets of the step have number 0, and
/// the number of a delivered packet is nothing to it. It reads all of the site's past anew.
pub fn step_of(
    alloc: Global,
    weights: &[u32],
    site: u32,
    rose: &[Record],
    since: &[SiteStep],
    input: &Input,
) -> Result<Made, NoMemory>
    requires { length since.now < 4294967295 }
    ensures { IfOk result (λ made. made ≡ step_of weights.now site (record { rose = rose.now; since = since.now }) input.now) }
{
    let place = place_of(alloc, weights, site, rose, since, input)?;
    step_at(&Anew::new(alloc, place))
}
