// The lines of a step's items that are skipped.
ghost use Rattle.std.specs.Prelude.{◌≡◌, ◌++◌, ◌==◌, ◌+◌, [], OnOk, IfOk, count_by, not};
ghost use Rattle.e3_world.specs.Items.{is_delivery};
ghost use Rattle.e3_report.specs.Pages.{Adds};
ghost use Rattle.e3_report.specs.Names.{meant};
ghost use Rattle.e3_report.specs.Skips.{taker_of, items_in, items_taken, not_begun_line, input_skip, power_skip, sites_of, skip_lines};
ghost use Rattle.e3_report.specs.Ups.{up_in};

use crate::Page;
use crate::counts::one_more;
use crate::known::Known;
use crate::lines::{push_word_and_bytes, push_word_line};
use crate::takers::{Taker, taker_of};
use e3_readings::is_delivery;
use e3_types::{Act, Entry, Input, Item, List, NoMemory};
use std::alloc::Global;
use std::collections::BTreeSet;

/// As many more as there are inputs that are no deliveries.
fn count_inputs(inputs: &[Input], before: u64) -> Result<u64, NoMemory>
    ensures { IfOk result (λ n. n ≡ before + count_by (λ i. not (is_delivery i)) inputs.now) }
{
    let mut n = before;
    for input in inputs {
        if !is_delivery(input) {
            n = one_more(n)?;
        }
    }
    Ok(n)
}

/// As many more as an act has inputs that are no deliveries.
fn count_items(act: &Act, before: u64) -> Result<u64, NoMemory>
    ensures { IfOk result (λ n. n ≡ before + items_in act.now) }
{
    match act {
        Act::Step { input, .. } => {
            if is_delivery(input) {
                Ok(before)
            } else {
                one_more(before)
            }
        }
        Act::Fall { inputs, .. } => count_inputs(inputs.as_slice(), before),
        _ => Ok(before),
    }
}

/// How many items a site took among these entries.
fn items_taken(site: u32, during: &[Entry]) -> Result<u64, NoMemory>
    ensures { IfOk result (λ n. n ≡ items_taken site during.now) }
{
    let mut n = 0;
    for e in during {
        if e.owner == site {
            n = count_items(&e.act, n)?;
        }
    }
    Ok(n)
}

/// How many of the sites are this one.
fn count_of(sites: &[u32], site: u32) -> u64
    ensures { result ≡ count_by (λ s. s == site) sites.now }
{
    sites.iter().filter(|s| **s == site).count() as u64
}

#[tactic(auto, unfolding(crate::specs::Skips::not_begun_line))]
fn push_not_begun(page: &mut Page, name: &[u8])
    ensures { Adds page.old page.new (not_begun_line name.now) }
{
    push_word_and_bytes(page, "0: ", name);
    page.line(" not begun");
}

/// Adds a line where an input is skipped.
#[tactic(auto, unfolding(crate::specs::Skips::input_skip))]
fn push_input_skip(
    page: &mut Page,
    during: &[Entry],
    earlier: &[u32],
    taker: &Taker,
) -> Result<(), NoMemory>
    ensures { OnOk result (Adds page.old page.new (input_skip during.now earlier.now taker.now)) }
{
    match taker {
        Taker::Site(site) => {
            let had = count_of(earlier, *site);
            let took = items_taken(*site, during)?;
            if took <= had {
                push_word_line(page, *site, "down");
            }
        }
        Taker::NotBegun(name) => push_not_begun(page, name.bytes()),
        Taker::Nobody => {}
    }
    Ok(())
}

/// Adds a line where a crash or a restart is skipped.
#[tactic(auto, unfolding(crate::specs::Skips::power_skip))]
fn push_power_skip(page: &mut Page, ups: &BTreeSet<u32>, item: &Item)
    ensures { Adds page.old page.new (power_skip (up_in ups.now.keys) item.now) }
{
    match item {
        Item::Crash { site } => {
            if !ups.contains(site) {
                push_word_line(page, *site, "down");
            }
        }
        Item::Restart { site } => {
            if ups.contains(site) {
                push_word_line(page, *site, "up");
            }
        }
        _ => {}
    }
}

fn add_site(earlier: &mut List<u32>, taker: &Taker) -> Result<(), NoMemory>
    ensures { OnOk result (earlier.new ≡ earlier.old ++ sites_of taker.now) }
{
    match taker {
        Taker::Site(site) => earlier.push(*site),
        Taker::NotBegun(_) | Taker::Nobody => Ok(()),
    }
}

/// Adds a line where an item with this taker is skipped, and its site to those of the items before.
fn push_taken(
    page: &mut Page,
    during: &[Entry],
    earlier: &mut List<u32>,
    taker: &Taker,
) -> Result<(), NoMemory>
    ensures text { OnOk result (Adds page.old page.new (input_skip during.now earlier.old taker.now)) }
    ensures sites { OnOk result (earlier.new ≡ earlier.old ++ sites_of taker.now) }
{
    push_input_skip(page, during, earlier.as_slice(), taker)?;
    add_site(earlier, taker)
}

/// Adds a line where this item is skipped, and its site to those of the items before.
fn push_skip(
    page: &mut Page,
    known: &Known,
    during: &[Entry],
    earlier: &mut List<u32>,
    item: &Item,
) -> Result<(), NoMemory>
    ensures text { OnOk result (Adds page.old page.new (power_skip (up_in known.now.ups.keys) item.now ++ input_skip during.now earlier.old (taker_of (meant known.now.names) item.now))) }
    ensures sites { OnOk result (earlier.new ≡ earlier.old ++ sites_of (taker_of (meant known.now.names) item.now)) }
{
    push_power_skip(page, &known.ups, item);
    let taker = taker_of(&known.names, item);
    push_taken(page, during, earlier, &taker)
}

/// Adds a line for each item that is skipped, where this is known at the step's line.
pub(crate) fn push_skips(
    alloc: Global,
    page: &mut Page,
    known: &Known,
    during: &[Entry],
    items: &[Item],
) -> Result<(), NoMemory>
    ensures { OnOk result (Adds page.old page.new (skip_lines (meant known.now.names) (up_in known.now.ups.keys) during.now [] items.now)) }
{
    let mut earlier = List::new(alloc);
    for item in items {
        push_skip(page, known, during, &mut earlier, item)?;
    }
    Ok(())
}
