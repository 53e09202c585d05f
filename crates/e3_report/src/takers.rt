// Which site takes an item of a step.
ghost use Rattle.std.specs.Prelude.{◌≡◌};
ghost use Rattle.e3_report.specs.Names.{meant};
ghost use Rattle.e3_report.specs.Skips.{to_coordinator, to_site, taker_of};

use crate::names::Names;
use e3_types::{Item, Name};

/// Who takes an item of a step: this site; nobody, since its name is not bound; or nobody, since it is for no site.
#[derive(Drop)]
pub(crate) enum Taker {
    Site(u32),
    NotBegun(Name),
    Nobody,
}

fn to_coordinator(names: &Names, name: &Name) -> Taker
    ensures { result ≡ to_coordinator name.now (meant names.now name.now) }
{
    match names.meant(name) {
        Some(txn) => Taker::Site(txn.site),
        None => Taker::NotBegun(name.copy()),
    }
}

fn to_site(names: &Names, name: &Name, site: u32) -> Taker
    ensures { result ≡ to_site name.now site (meant names.now name.now) }
{
    match names.meant(name) {
        Some(_) => Taker::Site(site),
        None => Taker::NotBegun(name.copy()),
    }
}

/// Who takes the item, where these names are bound.
pub(crate) fn taker_of(names: &Names, item: &Item) -> Taker
    ensures { result ≡ taker_of (meant names.now) item.now }
{
    match item {
        Item::Begin { site, .. } => Taker::Site(*site),
        Item::Read { name, .. }
        | Item::Write { name, .. }
        | Item::Commit { name }
        | Item::Cancel { name } => to_coordinator(names, name),
        Item::Expire { site, name } | Item::Elect { site, name, .. } => {
            to_site(names, name, *site)
        }
        _ => Taker::Nobody,
    }
}
