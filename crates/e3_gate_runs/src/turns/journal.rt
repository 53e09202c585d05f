// A journal of marks: a value with a chronicle. The marks of each owner are numbered from 0.
ghost use Rattle.std.specs.Prelude.{◌≡◌, ◌++◌, [], ◌∷◌, MatchResult, eqb};
ghost use Rattle.e3_gate_runs.specs.Marks.{IsNext, IsNumbered};

use e3_turn::Chronicle;
use std::alloc::{AllocError, Global};
use std::marker::Model;

/// A mark belongs to one owner, and has a number among the marks of this owner.
#[derive(Clone, Copy, Drop)]
pub struct Mark {
    pub owner: u32,
    pub number: u64,
}

/// Marks, the oldest first.
#[derive(Drop)]
pub struct Journal {
    marks: Vec<Mark>,
}

impl Model for Journal {
    ghost use Rattle.std.specs.Prelude.{List};
    ghost use Rattle.e3_gate_runs.specs.declared.turns.journal.Mark.{Mark};

    ghost Value = { List Mark };

    ghost use Rattle.e3_gate_runs.specs.Marks.{IsNumbered};

    ghost view = { λ s. s.marks.items };

    ghost invariant = { λ s. IsNumbered s.marks.items };
}

impl Chronicle for Journal {
    type Mark = Mark;

    ghost marks = { λ s. s };

    ghost belongs = { λ m o. eqb m.owner o };
}

impl Journal {
    /// A journal without a mark. It takes no memory.
    pub fn new(alloc: Global) -> Journal
        ensures { result ≡ [] }
    {
        Journal {
            marks: Vec::new(alloc),
        }
    }

    /// Adds a mark, which has the next number of its owner.
    pub fn push(&mut self, mark: Mark) -> Result<(), AllocError>
        requires { IsNext self.old mark }
        ensures { MatchResult result (λ _. self.new ≡ self.old ++ mark ∷ []) (λ _. self.new ≡ self.old) }
    {
        self.marks.push(mark)?;
        Ok(())
    }

    /// The marks, the oldest first.
    pub fn into_marks(self) -> Vec<Mark>
        ensures same { result.items ≡ self }
        ensures numbered { IsNumbered result.items }
    {
        let Journal { marks } = self;
        marks
    }
}
