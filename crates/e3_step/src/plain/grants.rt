// Which requests a decision grants.
ghost use Rattle.std.specs.Prelude.{◌≡◌, ◌<◌, ◌++◌, IfOk, length};
ghost use Rattle.e3_world.specs.Making.{names_of, asked_on, granted_on, granted, grants_after, log_now, steps_now};
ghost use Rattle.e3_world.specs.Operations.{holders};

use crate::plain::reading::{log_now, steps_now};
use e3_locks::front;
use e3_readings::{add_asked, add_name, copy_asked, first_asked, holders, key_of, queue, waiting};
use e3_types::{List, Lock, Name, NoMemory};
use e3_world::{Asked, At, Made};
use std::alloc::Global;

/// The names on which these operations are, each once, in byte order.
pub fn names_of(alloc: Global, asked: &[Asked]) -> Result<List<Name>, NoMemory>
    ensures { IfOk result (λ out. out ≡ names_of asked.now) }
{
    let mut names = List::new(alloc);
    for q in asked {
        names = add_name(alloc, names.as_slice(), &key_of(&q.op).name)?;
    }
    Ok(names)
}

/// The operations that are on a name.
pub fn asked_on(alloc: Global, name: &Name, asked: &[Asked]) -> Result<List<Asked>, NoMemory>
    ensures { IfOk result (λ out. out ≡ asked_on name.now asked.now) }
{
    let mut out = List::new(alloc);
    for q in asked {
        if name.is_same(&key_of(&q.op).name) {
            out.push(copy_asked(q))?;
        }
    }
    Ok(out)
}

// The locks on a name that are held behind the step so far.
fn holders_now(alloc: Global, a: &At, made: &Made, name: &Name) -> Result<List<Lock>, NoMemory>
    requires { length a.now.life.steps < 4294967295 }
    ensures { IfOk result (λ out. out ≡ holders a.now.site name.now (log_now a.now made.now) (steps_now a.now made.now)) }
{
    let log = log_now(alloc, a, made)?;
    let steps = steps_now(alloc, a, made)?;
    holders(alloc, a.site, name, log.as_slice(), steps.as_slice())
}

/// The requests on a name that are granted: the longest front of its queue that the other holders allow.
pub fn granted_on(
    alloc: Global,
    a: &At,
    made: &Made,
    asked: &[Asked],
    name: &Name,
) -> Result<List<Asked>, NoMemory>
    requires { length a.now.life.steps < 4294967295 }
    ensures { IfOk result (λ out. out ≡ granted_on a.now made.now asked.now name.now) }
{
    let holders = holders_now(alloc, a, made, name)?;
    let here = asked_on(alloc, name, asked)?;
    let queue = queue(alloc, name, here.as_slice())?;
    let front = front(alloc, holders.as_slice(), queue.as_slice())?;
    Ok(first_asked(front.len(), here))
}

fn add_granted(
    alloc: Global,
    a: &At,
    made: &Made,
    asked: &[Asked],
    name: &Name,
    out: &mut List<Asked>,
) -> Result<(), NoMemory>
    requires { length a.now.life.steps < 4294967295 }
    ensures { IfOk result (λ u. out.new ≡ out.old ++ granted_on a.now made.now asked.now name.now) }
{
    let here = granted_on(alloc, a, made, asked, name)?;
    add_asked(here.as_slice(), out)
}

/// The requests that are granted among those that wait, name by name.
pub fn granted(alloc: Global, a: &At, made: &Made, asked: &[Asked]) -> Result<List<Asked>, NoMemory>
    requires { length a.now.life.steps < 4294967295 }
    ensures { IfOk result (λ out. out ≡ granted a.now made.now asked.now) }
{
    let names = names_of(alloc, asked)?;
    let mut out = List::new(alloc);
    for name in names.as_slice() {
        add_granted(alloc, a, made, asked, name, &mut out)?;
    }
    Ok(out)
}

/// The requests that are granted now, where a decision has freed locks.
pub fn grants_after(alloc: Global, a: &At, made: &Made) -> Result<List<Asked>, NoMemory>
    requires { length a.now.life.steps < 4294967295 }
    ensures { IfOk result (λ out. out ≡ grants_after a.now made.now) }
{
    let log = log_now(alloc, a, made)?;
    let steps = steps_now(alloc, a, made)?;
    let asked = waiting(alloc, a.site, log.as_slice(), steps.as_slice())?;
    granted(alloc, a, made, asked.as_slice())
}
