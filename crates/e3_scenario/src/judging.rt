// The faults of items.
ghost use Rattle.std.specs.Prelude.{◌≡◌, [], ◌==◌, count_by};
ghost use Rattle.std.specs.List.{list_all};
ghost use Rattle.e3_types.specs.Sets.{has_site, is_within};
ghost use Rattle.e3_scenario.specs.Faults.{named_fault, begin_fault, operation_fault, expire_fault, elect_fault, recover_fault, split_fault, site_fault, stop_fault, item_fault};

use crate::faults::ScenarioFault;
use crate::so_far::SoFar;
use e3_types::{Item, List, Name, SiteSet};

/// The most operations of a transaction.
const MOST_OPERATIONS: u64 = 64;

fn named_fault(step: u32, so_far: &SoFar, name: &Name) -> Option<ScenarioFault>
    ensures { result ≡ named_fault step so_far.now name.now [] }
{
    match so_far.sites_of(name) {
        None => Some(ScenarioFault::NoTxn { step }),
        Some(_) => None,
    }
}

// An item at one site: that exists, and is the transaction's.
#[tactic(auto, unfolding(crate::specs::Faults::expire_fault))]
fn fault_at(
    all: SiteSet,
    step: u32,
    so_far: &SoFar,
    name: &Name,
    site: u32,
) -> Option<ScenarioFault>
    ensures { result ≡ expire_fault all step so_far.now site name.now }
{
    if !all.has(site) {
        return Some(ScenarioFault::NoSite { step });
    }
    match so_far.sites_of(name) {
        None => Some(ScenarioFault::NoTxn { step }),
        Some(own) if own.has(site) => None,
        Some(_) => Some(ScenarioFault::NoSite { step }),
    }
}

fn fault_among(step: u32, so_far: &SoFar, name: &Name, sites: SiteSet) -> Option<ScenarioFault>
    ensures { result ≡ named_fault step so_far.now name.now sites }
{
    match so_far.sites_of(name) {
        None => Some(ScenarioFault::NoTxn { step }),
        Some(own) if sites.within(own) => None,
        Some(_) => Some(ScenarioFault::NoSite { step }),
    }
}

#[tactic(auto, unfolding(crate::specs::Faults::begin_fault))]
fn begin_fault(
    all: SiteSet,
    step: u32,
    so_far: &SoFar,
    name: &Name,
    site: u32,
    sites: SiteSet,
) -> Option<ScenarioFault>
    ensures { result ≡ begin_fault all step so_far.now name.now site sites }
{
    if so_far.is_full() {
        return Some(ScenarioFault::BadLine { step });
    }
    if !(sites.within(all) && sites.has(site)) {
        return Some(ScenarioFault::NoSite { step });
    }
    if so_far.is_begun(name) {
        return Some(ScenarioFault::NameTwice { step });
    }
    None
}

#[tactic(auto, unfolding(crate::specs::Faults::operation_fault, crate::specs::Faults::expire_fault))]
fn operation_fault(
    all: SiteSet,
    step: u32,
    so_far: &SoFar,
    name: &Name,
    site: u32,
) -> Option<ScenarioFault>
    ensures { result ≡ operation_fault all step so_far.now name.now site }
{
    if MOST_OPERATIONS <= so_far.operations(name) {
        return Some(ScenarioFault::BadLine { step });
    }
    fault_at(all, step, so_far, name, site)
}

#[tactic(auto, unfolding(crate::specs::Faults::elect_fault))]
fn elect_fault(
    all: SiteSet,
    step: u32,
    so_far: &SoFar,
    site: u32,
    name: &Name,
    sites: SiteSet,
) -> Option<ScenarioFault>
    ensures { result ≡ elect_fault all step so_far.now site name.now sites }
{
    if !(sites.within(all) && sites.has(site)) {
        return Some(ScenarioFault::NoSite { step });
    }
    fault_among(step, so_far, name, sites)
}

#[tactic(auto, unfolding(crate::specs::Faults::recover_fault))]
fn recover_fault(all: SiteSet, step: u32, so_far: &SoFar, sites: SiteSet) -> Option<ScenarioFault>
    ensures { result ≡ recover_fault all step so_far.now sites }
{
    if !sites.within(all) {
        return Some(ScenarioFault::NoSite { step });
    }
    if so_far.is_in_one_part(sites) {
        None
    } else {
        Some(ScenarioFault::Parts { step })
    }
}

fn parts_exist(all: SiteSet, parts: &[SiteSet]) -> bool
    ensures { result ≡ list_all (λ part. is_within part all) parts.now }
{
    parts.iter().all(|part| part.within(all))
}

fn count_parts(parts: &[SiteSet], site: u32) -> usize
    ensures { result ≡ count_by (λ part. has_site part site) parts.now }
{
    parts.iter().filter(|part| part.has(site)).count()
}

fn name_each_once(all: SiteSet, parts: &[SiteSet]) -> bool
    ensures { result ≡ list_all (λ s. count_by (λ part. has_site part s) parts.now == 1) all }
{
    let mut once = true;
    for site in all.iter() {
        once = count_parts(parts, site) == 1 && once;
    }
    once
}

#[tactic(auto, unfolding(crate::specs::Faults::split_fault))]
fn split_fault(all: SiteSet, step: u32, parts: &List<SiteSet>) -> Option<ScenarioFault>
    ensures { result ≡ split_fault all step parts.now }
{
    if !parts_exist(all, parts.as_slice()) {
        return Some(ScenarioFault::NoSite { step });
    }
    if name_each_once(all, parts.as_slice()) {
        None
    } else {
        Some(ScenarioFault::Parts { step })
    }
}

#[tactic(auto, unfolding(crate::specs::Faults::site_fault))]
fn site_fault(all: SiteSet, step: u32, site: u32) -> Option<ScenarioFault>
    ensures { result ≡ site_fault all step site }
{
    if all.has(site) {
        None
    } else {
        Some(ScenarioFault::NoSite { step })
    }
}

#[tactic(auto, unfolding(crate::specs::Faults::stop_fault))]
fn stop_fault(all: SiteSet, step: u32, site: u32, count: u32) -> Option<ScenarioFault>
    ensures { result ≡ stop_fault all step site count }
{
    if 1 <= count {
        site_fault(all, step, site)
    } else {
        Some(ScenarioFault::BadLine { step })
    }
}

/// The first fault of an item, behind those before it.
pub fn item_fault(all: SiteSet, step: u32, so_far: &SoFar, item: &Item) -> Option<ScenarioFault>
    ensures { result ≡ item_fault all step so_far.now item.now }
{
    match item {
        Item::Begin { name, site, sites } => begin_fault(all, step, so_far, name, *site, *sites),
        Item::Read { name, key } => operation_fault(all, step, so_far, name, key.site),
        Item::Write { name, key, .. } => operation_fault(all, step, so_far, name, key.site),
        Item::Commit { name } => named_fault(step, so_far, name),
        Item::Cancel { name } => named_fault(step, so_far, name),
        Item::Expire { site, name } => fault_at(all, step, so_far, name, *site),
        Item::Elect { site, name, sites } => elect_fault(all, step, so_far, *site, name, *sites),
        Item::Recover { sites } => recover_fault(all, step, so_far, *sites),
        Item::Split { parts } => split_fault(all, step, parts),
        Item::Merge => None,
        Item::Crash { site } => site_fault(all, step, *site),
        Item::Restart { site } => site_fault(all, step, *site),
        Item::Stop { site, count, .. } => stop_fault(all, step, *site, *count),
    }
}
