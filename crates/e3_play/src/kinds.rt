// What kind of step the items are.
ghost use Rattle.std.specs.Prelude.{◌≡◌};
ghost use Rattle.e3_play.specs.Kinds.{kind_by, kind_of};

use e3_types::{Item, Leave, SiteSet};

/// A step by what the driver does for it.
#[derive(Drop)]
pub enum Kind {
    /// A group, a split or a merge: packets follow.
    Exchange,
    /// The power of a site is cut.
    Crash { site: u32 },
    /// A site rises.
    Restart { site: u32 },
    /// A group ends what is open at its sites.
    Recovery { group: SiteSet },
    /// The disk of a site is armed: its `calls`-th write or sync fails.
    Stop { site: u32, calls: u32, leave: Leave },
}

fn kind_by(item: &Item) -> Kind
    ensures { result ≡ kind_by item.now }
{
    match item {
        Item::Crash { site } => Kind::Crash { site: *site },
        Item::Restart { site } => Kind::Restart { site: *site },
        Item::Recover { sites } => Kind::Recovery { group: *sites },
        Item::Stop { site, count, leave } => Kind::Stop {
            site: *site,
            calls: *count,
            leave: *leave,
        },
        _ => Kind::Exchange,
    }
}

/// The kind of a step with these items.
pub fn kind_of(items: &[Item]) -> Kind
    ensures { result ≡ kind_of items.now }
{
    match items {
        [item] => kind_by(item),
        _ => Kind::Exchange,
    }
}
