// Where a history breaks the rules, and which rule it breaks.
ghost use Rattle.std.specs.Prelude.{◌≡◌};
ghost use Rattle.e3_judge.specs.Words.{guard_word};

/// A guard of an entry. `Owner`: the driver enters lines, parts and drops, a site of the scenario all else. `Up`: the site
/// is up for a step, a fall and a cut, and down for a rise. `Line`, `Parts`, `Drop`: such an entry is due. `Input`: the
/// inputs of a step or a fall are due at the site. `Step`: a cut or a rise is what the present step asks for. `Tail`: a
/// tail that is kept is open. `Inc`: the incarnation of a rise is the next. `Records`, `Outs`, `Told`: these are what the
/// inputs make.
#[derive(Clone, Copy, PartialEq, Eq)]
pub enum Guard {
    Owner,
    Up,
    Line,
    Parts,
    Drop,
    Input,
    Step,
    Tail,
    Inc,
    Records,
    Outs,
    Told,
}

impl Guard {
    /// The word by which a line of text names the guard.
    pub fn word(self) -> &'static str
        ensures { result.now ≡ guard_word self }
    {
        match self {
            Guard::Owner => "owner",
            Guard::Up => "up",
            Guard::Line => "line",
            Guard::Parts => "parts",
            Guard::Drop => "drop",
            Guard::Input => "input",
            Guard::Step => "step",
            Guard::Tail => "tail",
            Guard::Inc => "inc",
            Guard::Records => "records",
            Guard::Outs => "outs",
            Guard::Told => "told",
        }
    }
}

/// The first entry of a history whose guard fails, counted from 0, and the first of its guards that does.
#[derive(Clone, Copy)]
pub struct Breach {
    pub at: u64,
    pub guard: Guard,
}
