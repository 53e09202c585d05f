// What a site knows of itself while it is up: its log at present, and its life since it rose.
ghost use Rattle.std.specs.Prelude.{◌≡◌, ◌++◌, IfOk};
ghost use Rattle.e3_world.specs.Lives.{present_log, life_by, life_of};

use crate::logs::logged_inc;
use e3_types::{Copied, List, NoMemory, Record};
use e3_world::{Life, Moment, SiteStep};
use std::alloc::Global;

/// The log at present: the one that the site rose with, and the records of its steps since, the oldest first.
pub fn present_log(
    alloc: Global,
    rose: &[Record],
    since: &[SiteStep],
) -> Result<List<Record>, NoMemory>
    ensures { IfOk result (λ log. log ≡ present_log (record { rose = rose.now; since = since.now })) }
{
    let mut log = List::of_copies(alloc, rose)?;
    for s in since {
        log.add_copies(alloc, s.records.as_slice())?;
    }
    Ok(log)
}

fn moment_of(alloc: Global, before: &List<Record>, s: &SiteStep) -> Result<Moment, NoMemory>
    ensures { IfOk result (λ m. m ≡ record { before = before.now; input = s.now.input; records = s.now.records; outs = s.now.outs; told = s.now.told }) }
{
    Ok(Moment {
        before: before.copied(alloc)?,
        input: s.input.copy(),
        records: s.records.copied(alloc)?,
        outs: s.outs.copied(alloc)?,
        told: s.told.copied(alloc)?,
    })
}

/// The life behind one more step, which is kept with the log before it.
pub fn life_by(alloc: Global, life: Life, s: &SiteStep) -> Result<Life, NoMemory>
    ensures { IfOk result (λ more. more ≡ life_by life s.now) }
{
    let mut log = life.log;
    let mut steps = life.steps;
    let m = moment_of(alloc, &log, s)?;
    log.add_copies(alloc, s.records.as_slice())?;
    steps.push(m)?;
    Ok(Life {
        log,
        inc: life.inc,
        steps,
    })
}

/// The life of a site that rose with this log and made these steps since: its log at present, the number of its
/// incarnation, and its steps, each with the log before it.
pub fn life_of(alloc: Global, rose: &[Record], since: &[SiteStep]) -> Result<Life, NoMemory>
    ensures { IfOk result (λ life. life ≡ life_of (record { rose = rose.now; since = since.now })) }
{
    let mut life = Life {
        log: List::of_copies(alloc, rose)?,
        inc: logged_inc(rose),
        steps: List::new(alloc),
    };
    for s in since {
        life = life_by(alloc, life, s)?;
    }
    Ok(life)
}
