// Laws of the two regions.
ghost use Rattle.std.specs.Prelude.{◌≡◌, ◌≤◌, ◌+◌, List, ℕ, [], replicate};
ghost use Rattle.e3_log.specs.Laws.{AppendsAreWhole, TurnsAreWhole, ClearsAreSilent};
ghost use Rattle.e3_log.specs.Reading.{ReadsAs, DamagedAt};
ghost use Rattle.e3_log.specs.Regions.{half};

/// Bytes read as one list of bodies at most, of one generation, and what reads so is not damaged. What is damaged is so at one
/// place. A blank disk reads as no bodies, of the generation 0.
pub fn regions_have_one_reading()
    ensures one { (capacity g h : ℕ) (bs cs : List (List ℕ)) (bytes : List ℕ) → ReadsAs capacity g bs bytes → ReadsAs capacity h cs bytes → (bs ≡ cs) × (g ≡ h) }
    ensures whole { (capacity g : ℕ) (bs : List (List ℕ)) (bytes : List ℕ) (at : ℕ) → ReadsAs capacity g bs bytes → DamagedAt capacity bytes at → ⊥ }
    ensures one_damage { (capacity : ℕ) (bytes : List ℕ) (at place : ℕ) → DamagedAt capacity bytes at → DamagedAt capacity bytes place → at ≡ place }
    ensures blank { (capacity : ℕ) → 2 ≤ capacity → ReadsAs capacity 0 [] (replicate (half capacity + 1) 0) }
{}

/// Why a log in two regions survives a stop in each of its calls: whatever a crash leaves in an append, in a turn or while the
/// other region is closed reads as the bodies before the call, or as those that it gives.
pub fn calls_are_whole_or_not_at_all()
    ensures appends { AppendsAreWhole }
    ensures turns { TurnsAreWhole }
    ensures clears { ClearsAreSilent }
{}
