// The calls that are to fail, by their numbers.
ghost use Rattle.std.specs.Prelude.{◌≡◌};
ghost use Rattle.e3_disk.specs.Meters.{raised};

use e3_types::List;

/// Which calls are to fail, in any order, and how many calls were made.
#[derive(Drop)]
pub struct Schedule {
    pub fails: List<u64>,
    pub calls: u64,
}

impl Schedule {
    ghost use Rattle.e3_disk.specs.Panel.{is_listed};

    /// Counts a call, and says whether it is one that is to fail.
    pub fn is_listed(&mut self) -> bool
        ensures listed { result ≡ is_listed self.old.fails (raised self.old.calls 1) }
        ensures calls { self.new ≡ record self.old { calls = raised self.old.calls 1 } }
    {
        self.calls = self.calls.saturating_add(1);
        let number = self.calls;
        self.fails.as_slice().iter().any(|n| *n == number)
    }
}
