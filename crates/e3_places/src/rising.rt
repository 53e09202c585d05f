// The tables of a log, when a site rises with it.
ghost use Rattle.std.specs.Prelude.{◌≡◌, ◌∷◌, [], ℕ, IfOk, OnOk, List as Items};
ghost use Rattle.e3_types.specs.declared.records.Record.TheVariants as log;
ghost use Rattle.e3_places.specs.Keeping.{place_at, PlacesStand};
ghost use Rattle.e3_places.specs.Rising.{risen, first_row, RowsStand};

use crate::places::{Place, PlaceMap, Places, no_claims};
use e3_types::{Answer, Name, NoMemory, Row};
use std::alloc::Global;
use std::collections::BTreeMap;

/// The tables of an empty log.
pub fn unborn(alloc: Global) -> Places
    ensures { (site inc : ℕ) → PlacesStand site result (risen inc []) }
{
    Places {
        names: BTreeMap::new(alloc),
        txns: BTreeMap::new(alloc),
    }
}

fn add_row(alloc: Global, names: &mut PlaceMap, row: &Row) -> Result<(), NoMemory>
    ensures { OnOk result ((name : Items ℕ) → place_at names.new.entries name ≡ first_row name row.now (place_at names.old.entries name)) }
{
    let place = Place {
        claims: no_claims(alloc),
        row: Answer::Value(row.val.copy()),
    };
    match names.insert(row.name.copy(), place) {
        Ok(was) => {
            drop(was);
            Ok(())
        }
        Err(failed) => {
            drop(failed.value.1);
            Err(NoMemory)
        }
    }
}

// The last row first, so that of two of one name the first stands.
fn add_rows(alloc: Global, names: &mut PlaceMap, rows: &[Row]) -> Result<(), NoMemory>
    requires { RowsStand names.old.entries [] }
    ensures { OnOk result (RowsStand names.new.entries rows.now) }
{
    for i in (0..rows.len()).rev() {
        add_row(alloc, names, &rows[i])?;
    }
    Ok(())
}

/// The tables of a log that is a birth with these rows. Want of memory is the only error.
pub fn born(alloc: Global, rows: &[Row]) -> Result<Places, NoMemory>
    ensures { IfOk result (λ p. (site inc format of_site : ℕ) (weights : Items ℕ) → PlacesStand site p (risen inc (log.Birth format of_site weights rows.now ∷ []))) }
{
    let mut names = BTreeMap::new(alloc);
    add_rows(alloc, &mut names, rows)?;
    Ok(Places {
        names,
        txns: BTreeMap::new(alloc),
    })
}
