// A transaction as a key.
ghost use Rattle.e3_world.specs.Transactions.{IsFoundByBits};

use e3_types::{SiteSet, Txn};

/// The law that each transaction of the program is found by the bits of its sites.
pub fn found_by_bits(t: &Txn)
    ensures { IsFoundByBits t.now }
{
    let twin = SiteSet::of_bits(t.sites.bits());
    let _same = twin.is_same(t.sites);
}
