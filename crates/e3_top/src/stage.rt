// What commands are carried out with.
ghost use Rattle.std.specs.Prelude.{◌≤◌};

use std::alloc::Global;

/// What a command is carried out with: all but its source, its sink and its disks.
#[derive(Drop)]
pub struct Stage<'a, G, R> {
    pub rt: &'a R,
    pub alloc: Global,
    /// The words behind the program's name.
    pub words: &'a [String],
    /// What a worker passes before each turn of work.
    pub gate: &'a G,
    /// How many entries a history has at most.
    pub most: u32,
    ghost few: { most ≤ 2000000 },
}
