// The committed transactions of a history.
ghost use Rattle.std.specs.Prelude.{◌≡◌, IfOk};
ghost use Rattle.e3_world.specs.Moves.{all_records, trail_of};
ghost use Rattle.e3_world.specs.Serial.{commit_order};

use crate::places::placed;
use e3_order::commit_order;
use e3_types::{List, NoMemory, Scenario, Txn};
use e3_world::History;
use std::alloc::Global;

/// The transactions that some log commits, in the order of their last votes in all logs. In a legal history of a given
/// scenario this is the order in which they count as run.
pub fn order(alloc: Global, scenario: &Scenario, history: &History) -> Result<List<Txn>, NoMemory>
    ensures { IfOk result (λ txns. txns ≡ commit_order (all_records (trail_of scenario.now history.now.entries))) }
{
    let records = placed(alloc, scenario, history.as_slice())?;
    commit_order(alloc, records.as_slice())
}
