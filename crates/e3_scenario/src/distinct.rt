// Rows of different keys.
ghost use Rattle.std.specs.Prelude.{◌≡◌, IfOk};
ghost use Rattle.e3_world.specs.Given.{rows_differ};

use e3_types::{KeyRow, NoMemory};
use std::alloc::Global;
use std::collections::BTreeSet;

/// No two rows have one key. The keys so far are kept in order, so that many rows take little time.
pub fn rows_differ(alloc: Global, rows: &[KeyRow]) -> Result<bool, NoMemory>
    ensures { IfOk result (λ differ. differ ≡ rows_differ rows.now) }
{
    let mut seen = BTreeSet::new(alloc);
    for row in rows {
        match seen.insert((row.key.site, row.key.name.copy())) {
            Ok(true) => {}
            Ok(false) => return Ok(false),
            Err(_) => return Err(NoMemory),
        }
    }
    Ok(true)
}
