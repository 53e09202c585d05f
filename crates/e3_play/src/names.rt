// What names stand for, kept from step to step.
ghost use Rattle.std.specs.Prelude.{◌≡◌, IfOk, length};
ghost use Rattle.e3_readings.specs.Bindings.{bound_behind, nothing_bound};
ghost use Rattle.e3_play.specs.Known.{KnowsNames};

use e3_readings::{BoundNames, bind, nothing_bound};
use e3_types::{Entry, NoMemory, Scenario};
use std::alloc::Global;

/// What names stand for behind the entries that were read so far: each entry is read once.
#[derive(Drop)]
pub struct Names {
    pub binding: BoundNames,
    pub read: usize,
}

impl Names {
    /// Before the first entry.
    pub fn new(alloc: Global) -> Names
        ensures { result ≡ record { binding = nothing_bound; read = 0 } }
    {
        Names {
            binding: nothing_bound(alloc),
            read: 0,
        }
    }

    /// Reads the entries that came since. With an error it may know anything.
    pub fn read_on(
        &mut self,
        alloc: Global,
        scenario: &Scenario,
        history: &[Entry],
    ) -> Result<(), NoMemory>
        requires known { KnowsNames scenario.now history.now self.old }
        ensures { IfOk result (λ u. self.new ≡ record { binding = bound_behind scenario.now history.now; read = length history.now }) }
    {
        bind(alloc, scenario, &history[self.read..], &mut self.binding)?;
        self.read = history.len();
        Ok(())
    }
}
