// A value with a chronicle.
ghost use Rattle.std.specs.Prelude.{ℕ, List, Bool};

/// A value that has a chronicle: a list of marks, the oldest first. Each mark belongs to some of the owners, which are
/// numbers from 0; one that is put through a lock belongs to at least one.
pub trait Chronicle {
    /// What its chronicle is made of. No value of it needs to be made.
    type Mark;

    // The chronicle.
    ghost marks: { Self → List Self.Mark };

    // Whether a mark belongs to an owner.
    ghost belongs: { Self.Mark → ℕ → Bool };
}
