// The sets of all sites.
ghost use Rattle.std.specs.Prelude.{◌≡◌, ◌≤◌, length};
ghost use Rattle.e3_world.specs.Packets.{all_sites, sites_to};

use e3_types::{Scenario, SiteSet};

/// All sites up to this one.
#[tactic(auto, using(crate::proofs::AllSites::next_site))]
pub fn sites_to(count: u32) -> SiteSet
    requires { count ≤ 64 }
    ensures { result ≡ sites_to count }
{
    let mut sites = SiteSet::empty();
    for site in 0..count {
        sites = sites.with(site + 1);
    }
    sites
}

/// All sites of the scenario. More than 64 are no set of sites.
pub fn all_sites(scenario: &Scenario) -> SiteSet
    requires { length scenario.now.weights ≤ 64 }
    ensures { result ≡ all_sites scenario.now }
{
    sites_to(scenario.weights.len() as u32)
}
