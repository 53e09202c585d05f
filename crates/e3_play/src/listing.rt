// The rounds of a recovery step: for each transaction that is open at a member of the group that is up, in ascending order.
ghost use Rattle.std.specs.Prelude.{◌≡◌, ◌++◌, [], fold, filter, IfOk};
ghost use Rattle.std.specs.List.{flat_map};
ghost use Rattle.e3_world.specs.Items.{add_txn, is_up_at, listed, open_at};

use crate::Sites;
use e3_readings::{RecoveryRound, rounds_of};
use e3_types::{List, NoMemory, SiteSet, Txn};
use std::alloc::Global;

// Those of the group that are up.
fn up_in<S: Sites>(alloc: Global, sites: &S, group: SiteSet) -> Result<List<u32>, NoMemory>
    requires standing { S.stands sites.now }
    ensures { IfOk result (λ up. up ≡ filter (is_up_at (S.entries sites.now)) group) }
{
    let mut up = List::new(alloc);
    for site in group.iter() {
        if sites.is_up(site) {
            up.push(site)?;
        }
    }
    Ok(up)
}

// The transactions that are open at those of the group that are up: of each its own, ascending.
fn open_of<S: Sites>(alloc: Global, sites: &S, group: SiteSet) -> Result<List<Txn>, NoMemory>
    requires standing { S.stands sites.now }
    ensures { IfOk result (λ txns. txns ≡ flat_map (λ s. fold add_txn [] (open_at (S.scenario sites.now) (S.entries sites.now) s))
        (filter (is_up_at (S.entries sites.now)) group)) }
{
    let mut txns = List::new(alloc);
    for site in group.iter() {
        if sites.is_up(site) {
            let open = sites.open_txns(site)?;
            txns.extend(open.as_slice())?;
        }
    }
    Ok(txns)
}

/// The rounds that a recovery step with this group makes, where it starts now.
pub(crate) fn listed<S: Sites>(
    alloc: Global,
    sites: &S,
    group: SiteSet,
) -> Result<List<RecoveryRound>, NoMemory>
    requires standing { S.stands sites.now }
    ensures { IfOk result (λ rounds. rounds ≡ listed (S.scenario sites.now) (S.entries sites.now) group) }
{
    // (for the proof alone: that the group ascends, as `count` says beside the count, so that those of it which are up do too)
    let _members = group.count();
    let up = up_in(alloc, sites, group)?;
    let open = open_of(alloc, sites, group)?;
    rounds_of(alloc, open.as_slice(), up.as_slice())
}
