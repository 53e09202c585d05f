// The rounds of a recovery step.
ghost use Rattle.std.specs.Prelude.{◌≡◌, ◌++◌, [], filter, fold, IfOk, IsTrue};
ghost use Rattle.std.specs.List.{flat_map};
ghost use Rattle.e3_readings.specs.RoundOf.{round_of};
ghost use Rattle.e3_types.specs.Sets.{has_site, is_set};
ghost use Rattle.e3_world.specs.Items.{add_txn};

use crate::opens::in_order;
use e3_types::{List, NoMemory, SiteSet, Txn};
use std::alloc::Global;
use std::marker::Model;

/// A recovery round: a transaction, the members of the group that are up and its sites, and the least of them, which elects.
#[derive(Clone, Copy)]
pub struct RecoveryRound {
    pub txn: Txn,
    pub members: SiteSet,
    pub elector: u32,
}

impl Model for RecoveryRound {
    ghost use Rattle.e3_world.specs.Items.{RecoveryRound as Round};

    ghost Value = { Round };

    ghost view = { λ r. record { txn = r.txn; members = r.members; elector = r.elector } };

    ghost inverse = { λ r. record { txn = r.txn; members = r.members; elector = r.elector } };
}

// Those of these sites that are in the set.
fn sites_in(alloc: Global, set: SiteSet, sites: &[u32]) -> Result<List<u32>, NoMemory>
    ensures { IfOk result (λ out. out ≡ filter (has_site set) sites.now) }
{
    let mut out = List::new(alloc);
    for site in sites {
        if set.has(*site) {
            out.push(*site)?;
        }
    }
    Ok(out)
}

// The set of sites that ascend.
fn set_of(sites: &[u32]) -> SiteSet
    requires { IsTrue (is_set sites.now) }
    ensures { result ≡ sites.now }
{
    match SiteSet::of(sites) {
        Some(set) => set,
        None => unreachable!(),
    }
}

// Adds the round of a transaction with these members, where there is one.
fn add_round(t: &Txn, members: &[u32], out: &mut List<RecoveryRound>) -> Result<(), NoMemory>
    requires { IsTrue (is_set members.now) }
    ensures { IfOk result (λ u. out.new ≡ out.old ++ round_of t.now members.now) }
{
    match members {
        [] => Ok(()),
        [elector, ..] => out.push(RecoveryRound {
            txn: *t,
            members: set_of(members),
            elector: *elector,
        }),
    }
}

// The rounds of these transactions, one after the other, by the sites that are up.
fn rounds_in_turn(alloc: Global, txns: &[Txn], up: &[u32]) -> Result<List<RecoveryRound>, NoMemory>
    requires { IsTrue (is_set up.now) }
    ensures { IfOk result (λ rounds. rounds ≡ flat_map (λ t. round_of t (filter (has_site t.sites) up.now)) txns.now) }
{
    let mut rounds = List::new(alloc);
    for t in txns {
        let members = sites_in(alloc, t.sites, up)?;
        add_round(t, members.as_slice(), &mut rounds)?;
    }
    Ok(rounds)
}

/// The rounds of a recovery step, where these transactions are open and these members of its group are up, a set of sites
/// in ascending order: one for each transaction, in ascending order; none of one that none of these is a site of. Want of
/// memory is the only error.
pub fn rounds_of(alloc: Global, txns: &[Txn], up: &[u32]) -> Result<List<RecoveryRound>, NoMemory>
    requires { IsTrue (is_set up.now) }
    ensures { IfOk result (λ rounds. rounds ≡ flat_map (λ t. round_of t (filter (has_site t.sites) up.now)) (fold add_txn [] txns.now)) }
{
    let txns = in_order(alloc, txns)?;
    rounds_in_turn(alloc, txns.as_slice(), up)
}
