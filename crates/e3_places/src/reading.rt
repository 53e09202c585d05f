// What a step reads of a name.
ghost use Rattle.std.specs.Prelude.{◌≡◌, true, IfOk};
ghost use Rattle.e3_types.specs.Locks.{lock_grant};
ghost use Rattle.e3_world.specs.declared.lives.At.{At};
ghost use Rattle.e3_world.specs.Logs.{key_of, table_of, row_value};
ghost use Rattle.e3_world.specs.Making.{log_now};
ghost use Rattle.e3_world.specs.Operations.{holders, queue, waiting};
ghost use Rattle.e3_readings.specs.Requests.{lock_for};
ghost use Rattle.e3_places.specs.Standing.{follow, held_with, wanted_with};
ghost use Rattle.e3_places.specs.Keeping.{PlacesStand};

use crate::behind::row_by;
use crate::holding::{held, wanted};
use crate::places::{Claims, Places, bare, place_or};
use e3_locks::lock_grant;
use e3_readings::{key_of, lock_for};
use e3_types::{Answer, Grant, Name, NoMemory, Record};
use e3_world::{Asked, Made};
use std::alloc::Global;

// What the lock rule answers to a request over these claims, which it borrows.
fn lock_by(alloc: Global, claims: &Claims, q: &Asked, records: &[Record]) -> Result<Grant, NoMemory>
    ensures { IfOk result (λ g. g ≡ lock_grant (lock_for q.now) (held_with (key_of q.now.op).name records.now claims.now) (wanted_with records.now claims.now)) }
{
    let held = held(alloc, &key_of(&q.op).name, claims, records)?;
    let queued = wanted(alloc, claims, records)?;
    Ok(lock_grant(&lock_for(q), held.as_slice(), queued.as_slice()))
}

/// What the lock rule answers to a request, with the step's records: one look-up.
pub fn lock(alloc: Global, places: &Places, q: &Asked, made: &Made) -> Result<Grant, NoMemory>
    ghost a: { At }
    requires stand { PlacesStand a.site places.now a.life }
    requires follow { follow a.life.log made.now.records ≡ true }
    ensures { IfOk result (λ g. g ≡ lock_grant (lock_for q.now) (holders a.site (key_of q.now.op).name (log_now a made.now) a.life.steps)
        (queue (key_of q.now.op).name (waiting a.site (log_now a made.now) a.life.steps))) }
{
    let none = bare(alloc);
    let place = place_or(&places.names, &key_of(&q.op).name, &none);
    let grant = lock_by(alloc, &place.claims, q, made.records.as_slice());
    drop(none);
    grant
}

/// The value of a name in the table, with the step's records: one look-up.
pub fn row(alloc: Global, places: &Places, name: &Name, made: &Made) -> Result<Answer, NoMemory>
    ghost a: { At }
    requires stand { PlacesStand a.site places.now a.life }
    requires follow { follow a.life.log made.now.records ≡ true }
    ensures { IfOk result (λ x. x ≡ row_value name.now (table_of (log_now a made.now))) }
{
    let none = bare(alloc);
    let place = place_or(&places.names, name, &none);
    row_by(alloc, name, place, made.records.as_slice())
}
