// The items of a scenario.
ghost use Rattle.std.specs.Prelude.{◌≡◌};
ghost use Rattle.e3_world.specs.Given.{is_groupable};

use e3_types::Item;

/// The item may be one of a group: it is a client's call, an expiry or an election.
pub fn is_groupable(item: &Item) -> bool
    ensures { result ≡ is_groupable item.now }
{
    !matches!(
        item,
        Item::Recover { .. }
            | Item::Split { .. }
            | Item::Merge
            | Item::Crash { .. }
            | Item::Restart { .. }
            | Item::Stop { .. }
    )
}
