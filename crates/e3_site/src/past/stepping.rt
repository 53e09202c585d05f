// What a step makes of the tables of a site.
ghost use Rattle.std.specs.Prelude.{◌≡◌, ℕ, IfOk, OnOk, true};
ghost use Rattle.e3_world.specs.declared.lives.Life.{Life};
ghost use Rattle.e3_world.specs.Lives.{life_by};
ghost use Rattle.e3_cards.specs.Tables.{AreCountable};
ghost use Rattle.e3_places.specs.Standing.{follow};
ghost use Rattle.e3_site.specs.past.Standing.{TablesStand};
ghost use Rattle.e3_site.specs.past.Stepping.{ActAlike, HasRoom, IsMadeOf};

use crate::past::names;
use crate::past::opening::{added, apply_opens, ready_opens};
use crate::past::tables::{Behind, Tables};
use e3_cards as cards;
use e3_types::NoMemory;
use e3_world::SiteStep;
use std::alloc::Global;

/// What a step makes of the tables. It reads them alone, and changes none.
pub fn behind(alloc: Global, tables: &Tables, step: &SiteStep) -> Result<Behind, NoMemory>
    requires { AreCountable tables.now.cards }
    ensures { IfOk result (IsMadeOf tables.now step.now) }
{
    let cards = cards::changes(alloc, &tables.cards, step)?;
    let names = names::behind(alloc, &tables.cards, &tables.names, step)?;
    let opens = added(alloc, &tables.cards, step)?;
    Ok(Behind {
        cards,
        names,
        opens,
    })
}

/// Makes room for what a step makes: afterwards it can be put in its place. What the tables say stays, also where memory
/// wants.
pub fn ready(alloc: Global, tables: &mut Tables, behind: &Behind) -> Result<(), NoMemory>
    ensures same { ActAlike tables.old tables.new behind.now }
    ensures ok { OnOk result (HasRoom tables.new behind.now) }
{
    cards::ready(alloc, &mut tables.cards.map, behind.cards.cards.as_slice())?;
    names::ready(alloc, &mut tables.names, &behind.names)?;
    ready_opens(&mut tables.opens, &behind.opens)
}

/// Puts what a step makes in its place: the tables are those of the life with that step, where the step's records may follow
/// the log. Those of the rules always may: `steps_may_follow_the_log`. It takes no memory.
pub fn apply(tables: &mut Tables, step: &SiteStep, behind: Behind)
    requires are { IsMadeOf tables.old step.now behind }
    requires room { HasRoom tables.old behind }
    ensures { (site : ℕ) (life : Life) → TablesStand site life tables.old → follow life.log step.now.records ≡ true
        → TablesStand site (life_by life step.now) tables.new }
{
    names::apply(&mut tables.names, behind.names);
    apply_opens(&mut tables.opens, step, behind.opens);
    cards::apply(&mut tables.cards, step, behind.cards);
}
