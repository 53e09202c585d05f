// The search by halving.
ghost use Rattle.std.specs.Prelude.{◌≡◌, ℕ, List, MatchResult};
ghost use Rattle.e3_types.specs.Sorted.{IsAscending, IsAt, IsGap};

use crate::{Name, Row};
use std::cmp::Ordering;

/// An item with a name.
pub trait Named {
    ghost name_of: { Self → List ℕ };

    /// The item's name.
    fn name(&self) -> &Name
        ensures { result.now ≡ name_of self.now };
}

impl Named for Row {
    ghost name_of = { λ row. row.name };

    fn name(&self) -> &Name {
        &self.name
    }
}

/// The place of the item of this name; or, where there is none, the place at which it would stand.
pub fn place_of<T: Named>(items: &[T], name: &Name) -> Result<usize, usize>
    requires { IsAscending T.name_of items.now }
    ensures { MatchResult result (IsAt T.name_of name.now items.now) (IsGap T.name_of name.now items.now) }
{
    let mut low = 0;
    let mut high = items.len();
    'halves: while low < high {
        let mid = low + (high - low) / 2;
        match name.bytes().cmp(items[mid].name().bytes()) {
            Ordering::Less => high = mid,
            Ordering::Equal => return Ok(mid),
            Ordering::Greater => low = mid + 1,
        }
    }
    Err(low)
}
