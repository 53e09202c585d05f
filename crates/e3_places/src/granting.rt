// Which requests a decision grants.
ghost use Rattle.std.specs.Prelude.{◌≡◌, ◌++◌, [], ℕ, true, IfOk, filter, take};
ghost use Rattle.std.specs.List.{flat_map};
ghost use Rattle.e3_world.specs.declared.lives.At.{At};
ghost use Rattle.e3_world.specs.declared.lives.Life.{Life};
ghost use Rattle.e3_world.specs.Lives.{life_by};
ghost use Rattle.e3_world.specs.Making.{add_name, grants_after};
ghost use Rattle.e3_places.specs.Standing.{fresh_of, follow, waits_by, waits_with};
ghost use Rattle.e3_places.specs.Keeping.{PlacesStand};
ghost use Rattle.e3_places.specs.Granting.{given, given_behind, is_restless, stirred, restless_by, in_order, granted_by, RestlessStand, step_so_far};

use crate::changing::place_behind;
use crate::doings::Doings;
use crate::holding::{held, wanted};
use crate::places::{Claims, Places, Standing};
use crate::touching::names_touched;
use e3_locks::front;
use e3_readings::{add_asked, add_name, add_names, copy_asked, first_asked};
use e3_types::{List, Name, NoMemory};
use e3_world::{Asked, Made, SiteStep};
use std::alloc::Global;

fn add_waiting(s: &Standing, out: &mut List<Asked>) -> Result<(), NoMemory>
    ensures { IfOk result (λ u. out.new ≡ out.old ++ waits_by [] s.now) }
{
    if !s.answered {
        out.push(copy_asked(&s.asked))?;
    }
    Ok(())
}

fn waits(alloc: Global, claims: &Claims) -> Result<List<Asked>, NoMemory>
    ensures { IfOk result (λ out. out ≡ waits_with [] claims.now) }
{
    let mut out = List::new(alloc);
    for s in claims.standing.as_slice() {
        add_waiting(s, &mut out)?;
    }
    Ok(out)
}

fn given(alloc: Global, name: &Name, claims: &Claims) -> Result<List<Asked>, NoMemory>
    ensures { IfOk result (λ out. out ≡ given name.now claims.now) }
{
    let holders = held(alloc, name, claims, &[])?;
    let queue = wanted(alloc, claims, &[])?;
    let first = front(alloc, holders.as_slice(), queue.as_slice())?;
    let asked = waits(alloc, claims)?;
    Ok(first_asked(first.len(), asked))
}

fn given_behind(doings: &Doings<'_>, name: &Name) -> Result<List<Asked>, NoMemory>
    ensures { IfOk result (λ out. out ≡ given_behind doings.now.places.now.names.entries doings.now.new.now doings.now.records.now doings.now.events.now doings.now.outs.now name.now) }
{
    let place = place_behind(doings, name)?;
    given(doings.alloc, name, &place.claims)
}

fn is_restless(doings: &Doings<'_>, name: &Name) -> Result<bool, NoMemory>
    ensures { IfOk result (λ b. b ≡ is_restless doings.now.places.now.names.entries doings.now.new.now doings.now.records.now doings.now.events.now doings.now.outs.now name.now) }
{
    let asked = given_behind(doings, name)?;
    match asked.as_slice() {
        [] => Ok(false),
        [_, ..] => Ok(true),
    }
}

fn stirred(doings: &Doings<'_>, restless: &[Name]) -> Result<List<Name>, NoMemory>
    ensures { IfOk result (λ out. out ≡ stirred doings.now.places.now restless.now doings.now.new.now doings.now.records.now doings.now.events.now doings.now.outs.now) }
{
    let mut out = names_touched(doings)?;
    add_names(restless, &mut out)?;
    Ok(out)
}

fn in_order(alloc: Global, names: &[Name]) -> Result<List<Name>, NoMemory>
    ensures { IfOk result (λ out. out ≡ in_order names.now) }
{
    let mut out = List::new(alloc);
    for name in names {
        out = add_name(alloc, out.as_slice(), name)?;
    }
    Ok(out)
}

fn add_given(doings: &Doings<'_>, names: &[Name], out: &mut List<Asked>) -> Result<(), NoMemory>
    ensures { IfOk result (λ u. out.new ≡ out.old ++ flat_map (given_behind doings.now.places.now.names.entries doings.now.new.now doings.now.records.now doings.now.events.now doings.now.outs.now) names.now) }
{
    for name in names {
        let asked = given_behind(doings, name)?;
        add_asked(asked.as_slice(), out)?;
    }
    Ok(())
}

// The names on which requests can be granted, in their order.
fn names_stirred(doings: &Doings<'_>, restless: &[Name]) -> Result<List<Name>, NoMemory>
    ensures { IfOk result (λ out. out ≡ in_order (stirred doings.now.places.now restless.now doings.now.new.now doings.now.records.now doings.now.events.now doings.now.outs.now)) }
{
    let all = stirred(doings, restless)?;
    in_order(doings.alloc, all.as_slice())
}

fn granted_by(doings: &Doings<'_>, restless: &[Name]) -> Result<List<Asked>, NoMemory>
    ensures { IfOk result (λ out. out ≡ granted_by doings.now.places.now restless.now doings.now.new.now doings.now.records.now doings.now.events.now doings.now.outs.now) }
{
    let names = names_stirred(doings, restless)?;
    let mut out = List::new(doings.alloc);
    add_given(doings, names.as_slice(), &mut out)?;
    Ok(out)
}

/// The requests that are granted behind the step so far, name by name, where a decision has freed locks. It reads the names
/// that the step touches, and the restless ones.
pub fn grants_after(
    alloc: Global,
    places: &Places,
    restless: &[Name],
    new: &Option<Standing>,
    made: &Made,
) -> Result<List<Asked>, NoMemory>
    ghost a: { At }
    requires stand { PlacesStand a.site places.now a.life }
    requires rest { RestlessStand a.site restless.now a.life }
    requires new { new.now ≡ fresh_of a.site a.life (step_so_far a made.now) }
    requires follow { follow a.life.log made.now.records ≡ true }
    ensures { IfOk result (λ out. out ≡ grants_after a made.now) }
{
    let doings = Doings {
        alloc,
        places,
        new,
        records: made.records.as_slice(),
        events: made.told.as_slice(),
        outs: made.outs.as_slice(),
    };
    granted_by(&doings, restless)
}

fn add_restless(doings: &Doings<'_>, names: &[Name], out: &mut List<Name>) -> Result<(), NoMemory>
    ensures { IfOk result (λ u. out.new ≡ out.old ++ filter (is_restless doings.now.places.now.names.entries doings.now.new.now doings.now.records.now doings.now.events.now doings.now.outs.now) names.now) }
{
    for name in names {
        if is_restless(doings, name)? {
            out.push(name.copy())?;
        }
    }
    Ok(())
}

fn restless_by(doings: &Doings<'_>, restless: &[Name]) -> Result<List<Name>, NoMemory>
    ensures { IfOk result (λ out. out ≡ restless_by doings.now.places.now restless.now doings.now.new.now doings.now.records.now doings.now.events.now doings.now.outs.now) }
{
    let all = stirred(doings, restless)?;
    let mut out = List::new(doings.alloc);
    add_restless(doings, all.as_slice(), &mut out)?;
    Ok(out)
}

/// The names on which requests can be granted behind a step. Where each step grants what its decisions free, there are
/// none.
pub fn restless_behind(
    alloc: Global,
    places: &Places,
    restless: &[Name],
    new: &Option<Standing>,
    step: &SiteStep,
) -> Result<List<Name>, NoMemory>
    ensures { IfOk result (λ out. (site : ℕ) (life : Life) → PlacesStand site places.now life → RestlessStand site restless.now life
        → new.now ≡ fresh_of site life step.now → follow life.log step.now.records ≡ true → RestlessStand site out (life_by life step.now)) }
{
    let doings = Doings {
        alloc,
        places,
        new,
        records: step.records.as_slice(),
        events: step.told.as_slice(),
        outs: step.outs.as_slice(),
    };
    restless_by(&doings, restless)
}
