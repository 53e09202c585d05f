// The entries before a place of a history.
ghost use Rattle.std.specs.Prelude.{◌≡◌};

use e3_types::{Entry, Scenario};
use std::alloc::Global;

/// The entries before a place of a history, with its scenario. What is asked of them is read off them anew each time.
#[derive(Clone, Copy)]
pub struct Prefix<'a> {
    pub alloc: Global,
    pub scenario: &'a Scenario,
    pub entries: &'a [Entry],
}

impl<'a> Prefix<'a> {
    /// These entries, with their scenario.
    pub fn of(alloc: Global, scenario: &'a Scenario, entries: &'a [Entry]) -> Prefix<'a>
        ensures scenario { result.scenario.now ≡ scenario.now }
        ensures entries { result.entries.now ≡ entries.now }
    {
        Prefix {
            alloc,
            scenario,
            entries,
        }
    }
}
