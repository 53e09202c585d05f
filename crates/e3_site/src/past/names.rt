// What a site knows of names, read and changed with what its cards tell.
ghost use Rattle.std.specs.Prelude.{◌≡◌, ℕ, IfOk, OnOk, true};
ghost use Rattle.e3_types.specs.Locks.{lock_grant};
ghost use Rattle.e3_world.specs.declared.lives.At.{At};
ghost use Rattle.e3_world.specs.declared.lives.Life.{Life};
ghost use Rattle.e3_world.specs.declared.lives.SiteStep.{SiteStep as Step};
ghost use Rattle.e3_world.specs.Lives.{life_by};
ghost use Rattle.e3_world.specs.Logs.{key_of, table_of, row_value};
ghost use Rattle.e3_world.specs.Making.{grants_after, log_now};
ghost use Rattle.e3_world.specs.Operations.{holders, queue, waiting};
ghost use Rattle.e3_cards.specs.Tables.{AreCountable, CardsStand};
ghost use Rattle.e3_readings.specs.Requests.{lock_for};
ghost use Rattle.e3_places.specs.Standing.{follow};
ghost use Rattle.e3_places.specs.Keeping.{HasRoom};
ghost use Rattle.e3_site.specs.past.Knowing.{NamesStand, AreBehind};

use crate::past::arriving::fresh;
use e3_cards::Cards;
use e3_places as places;
use e3_places::{Changes, Places};
use e3_types::{Answer, Grant, Input, List, Name, NoMemory};
use e3_world::{Asked, Made, SiteStep};
use std::alloc::Global;

/// What a site knows of names: what stands on each, and the names on which a request could be granted.
#[derive(Drop)]
pub struct Names {
    pub places: Places,
    pub restless: List<Name>,
}

/// What a step makes of them.
#[derive(Drop)]
pub struct NamesBehind {
    pub changes: Changes,
    pub restless: List<Name>,
}

/// What the lock rule answers to a request, with the step's records.
pub(crate) fn lock(alloc: Global, names: &Names, q: &Asked, made: &Made) -> Result<Grant, NoMemory>
    ghost a: { At }
    requires names { NamesStand a.site names.now a.life }
    requires follow { follow a.life.log made.now.records ≡ true }
    ensures { IfOk result (λ g. g ≡ lock_grant (lock_for q.now) (holders a.site (key_of q.now.op).name (log_now a made.now) a.life.steps)
        (queue (key_of q.now.op).name (waiting a.site (log_now a made.now) a.life.steps))) }
{
    places::lock(alloc, &names.places, q, made)
}

/// The value of a name in the table, with the step's records.
pub(crate) fn row(
    alloc: Global,
    names: &Names,
    name: &Name,
    made: &Made,
) -> Result<Answer, NoMemory>
    ghost a: { At }
    requires names { NamesStand a.site names.now a.life }
    requires follow { follow a.life.log made.now.records ≡ true }
    ensures { IfOk result (λ x. x ≡ row_value name.now (table_of (log_now a made.now))) }
{
    places::row(alloc, &names.places, name, made)
}

/// The requests that are granted behind the step so far, where a decision has freed locks.
pub(crate) fn grants_after(
    alloc: Global,
    cards: &Cards,
    names: &Names,
    input: &Input,
    made: &Made,
) -> Result<List<Asked>, NoMemory>
    ghost a: { At }
    requires cards { CardsStand a.site cards.now a.life }
    requires names { NamesStand a.site names.now a.life }
    requires countable { AreCountable cards.now }
    requires input { input.now ≡ a.input }
    requires follow { follow a.life.log made.now.records ≡ true }
    ensures { IfOk result (λ out. out ≡ grants_after a made.now) }
{
    let new = fresh(alloc, cards, input, made.told.as_slice());
    places::grants_after(alloc, &names.places, names.restless.as_slice(), &new, made)
}

/// What a step makes of what is known of names, where its records may follow the log.
pub(crate) fn behind(
    alloc: Global,
    cards: &Cards,
    names: &Names,
    step: &SiteStep,
) -> Result<NamesBehind, NoMemory>
    requires { AreCountable cards.now }
    ensures { IfOk result (λ b. (a : At) → CardsStand a.site cards.now a.life → NamesStand a.site names.now a.life → follow a.life.log step.now.records ≡ true
        → AreBehind a.site names.now a.life step.now b) }
{
    let new = fresh(alloc, cards, &step.input, step.told.as_slice());
    let changes = places::changes_of(
        alloc,
        &names.places,
        &new,
        step.records.as_slice(),
        step.told.as_slice(),
        step.outs.as_slice(),
    )?;
    let restless = places::restless_behind(
        alloc,
        &names.places,
        names.restless.as_slice(),
        &new,
        step,
    )?;
    Ok(NamesBehind { changes, restless })
}

/// Makes room for what a step makes: afterwards it can be put in its place. What is known stays, also where memory wants.
pub(crate) fn ready(alloc: Global, names: &mut Names, behind: &NamesBehind) -> Result<(), NoMemory>
    ensures stand { (site : ℕ) (life : Life) → NamesStand site names.old life → NamesStand site names.new life }
    ensures are { (site : ℕ) (life : Life) (s : Step) → AreBehind site names.old life s behind.now → AreBehind site names.new life s behind.now }
    ensures ok { OnOk result (HasRoom names.new.places behind.now.changes) }
{
    places::ready(alloc, &mut names.places, &behind.changes)
}

/// Puts what a step makes in its place: it is known of the life with that step. It takes no memory.
pub(crate) fn apply(names: &mut Names, behind: NamesBehind)
    requires { HasRoom names.old.places behind.changes }
    ensures { (site : ℕ) (life : Life) (s : Step) → NamesStand site names.old life → AreBehind site names.old life s behind → NamesStand site names.new (life_by life s) }
{
    places::apply(&mut names.places, behind.changes);
    names.restless = behind.restless;
}
