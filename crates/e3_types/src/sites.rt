// Sets of sites, kept as bits and seen as the ascending list of their numbers.
ghost use Rattle.std.specs.Prelude.{◌≡◌, ◌<◌, ◌≤◌, ◌↔◌, ◌==◌, [], ◌∷◌, ℕ, length, nat_eq, IsTrue, IsSome, IfOk, IfSome, MatchOption};
ghost use Rattle.std.specs.Iterator.{YieldsFirst, item_count};
ghost use Rattle.std.specs.Cmp.{partial_order_from_own_ties};
ghost use Rattle.std.specs.Cmp.Rules.{comparing};
ghost use Rattle.std.specs.Ordering.{on, nat_cmp, as_partial_cmp};
ghost use Rattle.std.proofs.Common.{rules};
ghost use Rattle.e3_types.specs.Same.{same_numbers};
ghost use Rattle.e3_types.specs.Sets.{ascends, is_set, has_site, with_site, others, is_within};
ghost use Rattle.e3_types.specs.Sites.{sites_of, bits_of};

use crate::{List, NoMemory};
use std::alloc::Global;
use std::cmp::Ordering;
use std::marker::Model;

/// A set of sites, each from 1 to 64. Sets are ordered as the numbers in which bit k - 1 stands for site k.
#[derive(Clone, Copy)]
pub struct SiteSet {
    bits: u64,
}

impl Model for SiteSet {
    ghost use Rattle.std.specs.Prelude.{ℕ, List, ◌^◌, ◌<◌};
    ghost use Rattle.e3_types.specs.Sites.{sites_of, bits_of};
    ghost use Rattle.e3_types.specs.SetBits.{bits_of-sites_of};

    ghost Value = { List ℕ };

    ghost view = { λ a. sites_of a.bits };

    ghost invariant = { λ a. a.bits < 2 ^ 64 };

    ghost inverse = { λ sites. record { bits = bits_of sites } };

    ghost inverse_ok = { λ a h. bits_of-sites_of a h };
}

impl PartialEq for SiteSet {
    ghost eq = { on bits_of nat_eq };

    ghost laws = { Prim.search (comparing, rules) };

    fn eq(&self, other: &SiteSet) -> bool {
        self.bits() == other.bits()
    }
}

impl Eq for SiteSet {
    ghost laws = { Prim.search (comparing, rules) };
}

impl PartialOrd for SiteSet {
    ghost partial_cmp = { as_partial_cmp (on bits_of nat_cmp) };

    ghost laws = { partial_order_from_own_ties (Prim.search (comparing, rules)) (Prim.search (comparing, rules)) };

    fn partial_cmp(&self, other: &SiteSet) -> Option<Ordering> {
        Some(self.cmp(other))
    }
}

impl Ord for SiteSet {
    ghost cmp = { on bits_of nat_cmp };

    ghost total = { Prim.search (comparing, rules) };

    ghost matches_partial_cmp = { Prim.search (comparing, rules) };

    ghost matches_eq = { Prim.search (comparing, rules) };

    fn cmp(&self, other: &SiteSet) -> Ordering {
        self.bits().cmp(&other.bits())
    }
}

// The numbers ascend strictly above the first, and end at 64.
fn ascends(low: u32, sites: &[u32]) -> bool
    ensures { result ≡ ascends low sites.now }
{
    match sites {
        [] => true,
        [site, rest @ ..] => low < *site && *site <= 64 && ascends(*site, rest),
    }
}

impl SiteSet {
    /// The set without a site.
    #[tactic(auto, using(crate::proofs::SetSteps::no_bit))]
    pub fn empty() -> SiteSet
        ensures { result ≡ [] }
    {
        SiteSet { bits: 0 }
    }

    /// The set of one site.
    pub fn one(site: u32) -> SiteSet
        requires low { 1 ≤ site }
        requires high { site ≤ 64 }
        ensures { result ≡ site ∷ [] }
    {
        SiteSet::empty().with(site)
    }

    /// The set of these sites. None where a number is outside 1 to 64, or the list does not ascend strictly.
    pub fn of(sites: &[u32]) -> Option<SiteSet>
        ensures form { IsSome result ↔ IsTrue (is_set sites.now) }
        ensures some { IfSome result (λ set. set ≡ sites.now) }
    {
        if !ascends(0, sites) {
            return None;
        }
        Some(SiteSet::joined(sites))
    }

    // The set of sites that ascend.
    #[tactic(auto, using(crate::proofs::SetSteps::ascends_within))]
    fn joined(sites: &[u32]) -> SiteSet
        requires { IsTrue (is_set sites.now) }
        ensures { result ≡ sites.now }
    {
        let mut set = SiteSet::empty();
        for site in sites {
            set = set.with(*site);
        }
        set
    }

    /// The number in which bit k - 1 stands for site k.
    #[tactic(auto, using(crate::specs::SetBits::bits_back))]
    pub fn bits(self) -> u64
        ensures { result ≡ bits_of self }
    {
        self.bits
    }

    /// The set of the sites k whose bit k - 1 is set.
    pub fn of_bits(bits: u64) -> SiteSet
        ensures { result ≡ sites_of bits }
    {
        SiteSet { bits }
    }

    /// Whether the site is in the set. No set has a number outside 1 to 64.
    #[tactic(auto, using(crate::proofs::SetSteps::has_bit, crate::proofs::SetSteps::has_no_zero, crate::proofs::SetSteps::has_none_beyond))]
    pub fn has(self, site: u32) -> bool
        ensures { result ≡ has_site self site }
    {
        1 <= site && site <= 64 && (self.bits >> (site - 1)) % 2 == 1
    }

    /// The set with this site too.
    #[tactic(auto, using(crate::proofs::SetSteps::with_bit, crate::proofs::SetSteps::with_small))]
    pub fn with(self, site: u32) -> SiteSet
        requires low { 1 ≤ site }
        requires high { site ≤ 64 }
        ensures { result ≡ with_site site self }
    {
        SiteSet {
            bits: self.bits | (1 << (site - 1)),
        }
    }

    /// The set without this site.
    #[tactic(auto, using(crate::proofs::SetSteps::without_bit, crate::proofs::SetSteps::others_none, crate::proofs::SetSteps::has_no_zero, crate::proofs::SetSteps::has_none_beyond))]
    pub fn without(self, site: u32) -> SiteSet
        ensures { result ≡ others site self }
    {
        if site < 1 || site > 64 {
            return self;
        }
        SiteSet {
            bits: self.bits & !(1 << (site - 1)),
        }
    }

    /// How many sites there are, 0 to 64. Every set ascends, which the contract says beside the count.
    #[tactic(auto, using(crate::proofs::SetSteps::length_ones, crate::proofs::SetSteps::bits_ascend))]
    pub fn count(self) -> u32
        ensures number { result ≡ length self }
        ensures few { result ≤ 64 }
        ensures ascending { IsTrue (is_set self) }
    {
        self.bits.count_ones()
    }

    /// All sites of this set are in the other.
    #[tactic(auto, using(crate::proofs::SetSteps::within_bits))]
    pub fn within(self, other: SiteSet) -> bool
        ensures { result ≡ is_within self other }
    {
        self.bits & other.bits == self.bits
    }

    /// The two sets are one: their lists are equal, and so are their numbers.
    #[tactic(auto, using(crate::proofs::SameSites::same_bits, crate::specs::SetBits::bits_back))]
    pub fn is_same(self, other: SiteSet) -> bool
        ensures lists { result ≡ same_numbers self other }
        ensures numbers { result ≡ (bits_of self == bits_of other) }
    {
        self.bits == other.bits
    }

    /// The lowest site, and the set of the others. None where there is no site.
    #[tactic(auto, using(crate::proofs::SetSteps::no_bit, crate::proofs::SetSteps::first_bit, crate::proofs::SetSteps::first_small))]
    pub fn split_first(self) -> Option<(u32, SiteSet)>
        ensures { MatchOption result (self ≡ []) (λ x. self ≡ x.0 ∷ x.1) }
    {
        if self.bits == 0 {
            return None;
        }
        let site = self.bits.trailing_zeros() + 1;
        let rest = SiteSet {
            bits: self.bits & (self.bits - 1),
        };
        Some((site, rest))
    }

    /// Goes over the sites in ascending order. It takes no memory.
    pub fn iter(self) -> SiteIter
        ensures { result ≡ self }
    {
        SiteIter { left: self }
    }

    /// The sites as a list, in ascending order. Want of memory is the only error.
    pub fn list(self, alloc: Global) -> Result<List<u32>, NoMemory>
        ensures { IfOk result (λ out. out ≡ self) }
    {
        let mut out = List::new(alloc);
        for site in self.iter() {
            out.push(site)?;
        }
        Ok(out)
    }
}

/// The sites of a set that are still to come, in ascending order.
#[derive(Drop)]
pub struct SiteIter {
    left: SiteSet,
}

impl Model for SiteIter {
    ghost use Rattle.std.specs.Prelude.{ℕ, List};

    ghost Value = { List ℕ };

    ghost view = { λ a. a.left };
}

impl Iterator for SiteIter {
    type Item = u32;

    ghost next_gives = { YieldsFirst (λ s. s) };

    ghost remaining = { item_count (λ s. s) };

    fn next(&mut self) -> Option<u32> {
        let (site, left) = self.left.split_first()?;
        self.left = left;
        Some(site)
    }
}
