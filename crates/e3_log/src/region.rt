// The two regions of a disk, and which of them counts.
ghost use Rattle.std.specs.Prelude.{◌≡◌};
ghost use Rattle.e3_log.specs.Fronts.{active_of, generation_of, is_open, is_told, newer_of};
ghost use Rattle.e3_log.specs.Regions.{half, limit, other, size, start};

/// A region of a disk: the first half of its capacity, or the rest.
#[derive(Clone, Copy, Debug, PartialEq, Eq)]
pub enum Region {
    First,
    Second,
}

/// How a region begins: with a closed gate, with a whole frame, which may tell a generation, or with neither.
#[derive(Clone, Copy)]
pub enum Front {
    Shut,
    Whole { told: Option<u32> },
    Broken,
}

/// The region that counts and its generation, or the region for which none does.
#[derive(Clone, Copy)]
pub enum Found {
    Active { region: Region, generation: u32 },
    Damaged { region: Region },
}

/// The place at which the second region begins.
pub fn half(capacity: u64) -> u64
    ensures { result ≡ half capacity }
{
    capacity / 2
}

impl Region {
    /// The place of its first gate.
    pub fn start(self, capacity: u64) -> u64
        ensures { result ≡ start capacity self }
    {
        match self {
            Region::First => 0,
            Region::Second => half(capacity),
        }
    }

    /// The place behind it.
    pub fn limit(self, capacity: u64) -> u64
        ensures { result ≡ limit capacity self }
    {
        match self {
            Region::First => half(capacity),
            Region::Second => capacity,
        }
    }

    /// How many bytes it has room for.
    pub fn size(self, capacity: u64) -> u64
        ensures { result ≡ size capacity self }
    {
        match self {
            Region::First => half(capacity),
            Region::Second => capacity - half(capacity),
        }
    }

    /// The other region.
    pub fn other(self) -> Region
        ensures { result ≡ other self }
    {
        match self {
            Region::First => Region::Second,
            Region::Second => Region::First,
        }
    }
}

impl Front {
    /// The gate is open.
    pub fn is_open(self) -> bool
        ensures { result ≡ is_open self }
    {
        !matches!(self, Front::Shut)
    }

    /// It tells a generation.
    pub fn is_told(self) -> bool
        ensures { result ≡ is_told self }
    {
        matches!(self, Front::Whole { told: Some(_) })
    }
}

fn generation_of(told: Option<u32>) -> u32
    ensures { result ≡ generation_of told }
{
    told.unwrap_or(0)
}

fn newer_of(first: u32, second: u32) -> Found
    ensures { result ≡ newer_of first second }
{
    if first == second {
        Found::Damaged {
            region: Region::Second,
        }
    } else if second < first {
        Found::Active {
            region: Region::First,
            generation: first,
        }
    } else {
        Found::Active {
            region: Region::Second,
            generation: second,
        }
    }
}

// The region that counts, where the second one is open and tells this generation.
fn with_second(first: Front, second: u32) -> Found
    ensures { result ≡ active_of first (Front.Whole (Some second)) }
{
    match first {
        Front::Broken => Found::Damaged {
            region: Region::First,
        },
        Front::Shut => Found::Active {
            region: Region::Second,
            generation: second,
        },
        Front::Whole { told } => newer_of(generation_of(told), second),
    }
}

// The region that counts, where the second one is closed.
fn with_first(first: Front) -> Found
    ensures { result ≡ active_of first Front.Shut }
{
    match first {
        Front::Broken => Found::Damaged {
            region: Region::First,
        },
        Front::Shut => Found::Active {
            region: Region::First,
            generation: 0,
        },
        Front::Whole { told } => Found::Active {
            region: Region::First,
            generation: generation_of(told),
        },
    }
}

// The region for which none counts, where the second one is open and tells nothing.
fn with_neither(first: Front) -> Region
    ensures { Found.Damaged result ≡ active_of first Front.Broken }
{
    match first {
        Front::Broken => Region::First,
        _ => Region::Second,
    }
}

/// The region that counts, by how both begin.
pub fn active_of(first: Front, second: Front) -> Found
    ensures { result ≡ active_of first second }
{
    match second {
        Front::Shut => with_first(first),
        Front::Whole { told: Some(told) } => with_second(first, told),
        Front::Whole { told: None } | Front::Broken => Found::Damaged {
            region: with_neither(first),
        },
    }
}
