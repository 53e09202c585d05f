// The weights of sites.
ghost use Rattle.std.specs.Prelude.{◌≡◌, ◌≤◌, ◌+◌, IsTrue, IfOk, IfErr, None, length};
ghost use Rattle.e3_types.specs.Quorums.{weight_of, is_quorum};
ghost use Rattle.e3_types.specs.Sets.{has_site, is_within};
ghost use Rattle.e3_quorum.specs.Weighing.{range_fault, weight_fault, Refuses, have_weights};

use crate::{is_quorum, weight_of};
use e3_types::{List, SiteSet};
use std::alloc::Global;
use std::marker::Model;

/// Why there are no weights: there are none of them or more than 16, or the weight of a site is not from 1 to 1,000, the
/// first such site.
#[derive(Clone, Copy)]
pub enum WeightFault {
    Count { count: u64 },
    Range { site: u32, weight: u32 },
    NoMemory,
}

/// The weights of 1 to 16 sites, each from 1 to 1,000. Site k has the k-th.
#[derive(Drop)]
pub struct Weights {
    weights: List<u32>,
}

impl Model for Weights {
    ghost use Rattle.std.specs.Prelude.{◌≡◌, ℕ, List, None};
    ghost use Rattle.e3_quorum.specs.Weighing.{weight_fault};

    ghost Value = { List ℕ };

    ghost view = { λ a. a.weights };

    ghost invariant = { λ a. weight_fault a.weights ≡ None };
}

// The first weight out of range, where the first of these is that of this site.
fn range_fault(site: u32, weights: &[u32]) -> Option<WeightFault>
    requires { site + length weights.now ≤ 100 }
    ensures { result ≡ range_fault site weights.now }
{
    match weights {
        [] => None,
        [weight, rest @ ..] => {
            if 1 <= *weight && *weight <= 1000 {
                range_fault(site + 1, rest)
            } else {
                Some(WeightFault::Range {
                    site,
                    weight: *weight,
                })
            }
        }
    }
}

// What keeps these numbers from being weights.
fn weight_fault(weights: &[u32]) -> Option<WeightFault>
    ensures { result ≡ weight_fault weights.now }
{
    if weights.is_empty() || weights.len() > 16 {
        return Some(WeightFault::Count {
            count: weights.len() as u64,
        });
    }
    range_fault(1, weights)
}

impl Weights {
    /// The weights of sites 1 to the length of the list. The count is tested before the weights.
    pub fn new(alloc: Global, weights: &[u32]) -> Result<Weights, WeightFault>
        ensures ok { IfOk result (λ made. (made ≡ weights.now) × (weight_fault weights.now ≡ None)) }
        ensures err { IfErr result (λ fault. Refuses weights.now fault) }
    {
        if let Some(fault) = weight_fault(weights) {
            return Err(fault);
        }
        let mut kept = List::new(alloc);
        match kept.extend(weights) {
            Ok(()) => Ok(Weights { weights: kept }),
            Err(_) => Err(WeightFault::NoMemory),
        }
    }

    /// The sum of the weights of these sites. It takes no memory.
    pub fn weight_of(&self, sites: SiteSet) -> u64
        requires { IsTrue (have_weights self.now sites) }
        ensures { result ≡ weight_of self.now sites }
    {
        weight_of(self.weights.as_slice(), sites)
    }

    /// The members have more than half of the weight of all. It takes no memory.
    pub fn is_quorum(&self, members: SiteSet, all: SiteSet) -> bool
        requires within { IsTrue (is_within members all) }
        requires weighed { IsTrue (have_weights self.now all) }
        ensures { result ≡ is_quorum self.now members all }
    {
        is_quorum(self.weights.as_slice(), members, all)
    }

    /// The law of quorums: any two of one set share a site, which it finds. It takes no memory.
    pub fn shared_site(&self, a: SiteSet, b: SiteSet, all: SiteSet) -> u32
        requires weighed { IsTrue (have_weights self.now all) }
        requires a_within { IsTrue (is_within a all) }
        requires b_within { IsTrue (is_within b all) }
        requires a_quorum { IsTrue (is_quorum self.now a all) }
        requires b_quorum { IsTrue (is_quorum self.now b all) }
        ensures in_a { IsTrue (has_site a result) }
        ensures in_b { IsTrue (has_site b result) }
    {
        let _ = a.count();
        let _ = b.count();
        for site in a.iter() {
            if b.has(site) {
                return site;
            }
        }
        0
    }
}
