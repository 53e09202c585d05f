// What is known at a place of a history.
ghost use Rattle.std.specs.Prelude.{◌≡◌, []};
ghost use Rattle.e3_report.specs.Names.{no_naming};

use crate::names::Names;
use std::alloc::Global;
use std::collections::BTreeSet;

/// The names that are bound at a place of a history, and the sites that are up there.
#[derive(Drop)]
pub(crate) struct Known {
    pub(crate) names: Names,
    pub(crate) ups: BTreeSet<u32>,
}

impl Known {
    /// Before the first entry no name is bound, and no site is up.
    pub(crate) fn new(alloc: Global) -> Known
        ensures names { result.names ≡ no_naming }
        ensures ups { result.ups.keys ≡ [] }
    {
        Known {
            names: Names::new(alloc),
            ups: BTreeSet::new(alloc),
        }
    }
}
