// The weight of sites, and which of them are a quorum.
ghost use Rattle.std.specs.Prelude.{◌≡◌, ◌<◌, ◌-◌, ◌*◌, ◌^◌, ◌∷◌, nat_lt, slice_index};
ghost use Rattle.e3_types.specs.Quorums.{weight_of, is_quorum};

use e3_types::SiteSet;

/// The weight of a site: site k has the k-th weight, and 0 where there is none. Site 0, which no set has, is taken for site 1.
pub fn weight_at(weights: &[u32], site: u32) -> u32
    ensures { result ≡ slice_index weights.now (site - 1) }
{
    match weights.get(site.saturating_sub(1) as usize) {
        Some(weight) => *weight,
        None => 0,
    }
}

/// The sum of the weights of these sites. The k-th weight is that of site k; a site without a weight has 0; no set has site 0.
#[tactic(auto, using(crate::proofs::Sums::weight_cons))]
pub fn weight_of(weights: &[u32], sites: SiteSet) -> u64
    ensures weight { result ≡ weight_of weights.now sites }
    ensures small { result < 2 ^ 38 }
{
    let _count = sites.count();
    let mut sum = 0;
    for site in sites.iter() {
        sum += weight_at(weights, site) as u64;
    }
    sum
}

// The sum of the weights of these sites, one that stands there twice counted twice. A weight has 32 bits, and a list fewer
// than 2^64 items, so that no sum passes 96 bits.
fn weigh(weights: &[u32], sites: &[u32]) -> u128
    ensures weight { result ≡ weight_of weights.now sites.now }
    ensures small { result < 2 ^ 96 }
{
    let mut sum: u128 = 0;
    for site in sites {
        sum += weight_at(weights, *site) as u128;
    }
    sum
}

// It is more than half of the total: twice the weight exceeds it.
fn exceeds_half(have: u128, total: u64) -> bool
    ensures { result ≡ nat_lt total (2 * have) }
{
    let total = total as u128;
    total < have || total - have < have
}

/// The members have more than half of the weight of all: twice their weight exceeds it.
pub fn is_quorum(weights: &[u32], members: SiteSet, all: SiteSet) -> bool
    ensures { result ≡ is_quorum weights.now members all }
{
    exceeds_half(weight_of(weights, members) as u128, weight_of(weights, all))
}

/// The site and these others, in any order, have more than half of the weight of all. It is the test of a site that
/// attempted, with those that acknowledged.
#[tactic(auto, using(crate::proofs::Sums::weight_cons))]
pub fn is_quorum_with(weights: &[u32], site: u32, others: &[u32], all: SiteSet) -> bool
    ensures { result ≡ is_quorum weights.now (site ∷ others.now) all }
{
    let have = weight_at(weights, site) as u128 + weigh(weights, others);
    exceeds_half(have, weight_of(weights, all))
}
