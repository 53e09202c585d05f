// The calls of a stream in memory.
ghost use Rattle.std.specs.Prelude.{◌≡◌, ◌≤◌, ◌↔◌, true, Contains};
ghost use Rattle.e3_outside.specs.Faults.{count_up};

use e3_types::List;

/// How many bytes a call of a stream takes at most, the numbers of the calls that fail, in any order and counted from 1, how many
/// calls were made, and how many of them failed.
#[derive(Drop)]
pub struct Calls {
    pub most: usize,
    pub fails: List<u64>,
    pub made: u64,
    pub faults: u64,
}

impl Calls {
    /// None was made.
    pub fn new(most: u64, fails: List<u64>) -> Calls
        ensures { result ≡ record { most = most; fails = fails; made = 0; faults = 0 } }
    {
        Calls {
            most: most as usize,
            fails,
            made: 0,
            faults: 0,
        }
    }

    /// Counts a call, and answers whether it is one that fails.
    pub fn begin(&mut self) -> bool
        ensures fails { (result ≡ true) ↔ Contains self.old.fails (count_up self.old.made) }
        ensures made { self.new ≡ record { most = self.old.most; fails = self.old.fails; made = count_up self.old.made; faults = self.old.faults } }
    {
        self.made = self.made.saturating_add(1);
        self.fails.as_slice().contains(&self.made)
    }

    /// Counts a fault.
    pub fn fail(&mut self)
        ensures never_falls { self.old.faults ≤ self.new.faults }
        ensures counted { self.new ≡ record { most = self.old.most; fails = self.old.fails; made = self.old.made; faults = count_up self.old.faults } }
    {
        self.faults = self.faults.saturating_add(1);
    }
}
