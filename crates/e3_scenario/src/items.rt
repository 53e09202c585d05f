// The items of a scenario.
ghost use Rattle.std.specs.Prelude.{◌≡◌, IfOk};
ghost use Rattle.e3_scenario.specs.Words.{before};
ghost use Rattle.e3_scenario.specs.Items.{begin_of, read_of, write_of, commit_of, cancel_of, expire_of, elect_of, recover_of, split_of, merge_of, crash_of, restart_of, stop_of, transaction_item, site_item, item_by, item_of};

use crate::parts::{count, key, leave, parts, site, sites};
use crate::words::{SPACE, before, is_all_printable, rest, word};
use e3_report::lines::{is_text, name_of, value_of};
use e3_types::{Item, NoMemory};
use std::alloc::Global;

#[tactic(auto, unfolding(crate::specs::Items::begin_of))]
fn begin(text: &[u8]) -> Option<Item>
    ensures { result ≡ begin_of text.now }
{
    let name = name_of(word(text, 1)?)?;
    let site = site(word(text, 2)?)?;
    let sites = sites(rest(text, 3)?)?;
    Some(Item::Begin { name, site, sites })
}

#[tactic(auto, unfolding(crate::specs::Items::read_of))]
fn read(text: &[u8]) -> Option<Item>
    ensures { result ≡ read_of text.now }
{
    let name = name_of(word(text, 1)?)?;
    let key = key(rest(text, 2)?)?;
    Some(Item::Read { name, key })
}

#[tactic(auto, unfolding(crate::specs::Items::write_of))]
fn write(text: &[u8]) -> Option<Item>
    ensures { result ≡ write_of text.now }
{
    let name = name_of(word(text, 1)?)?;
    let key = key(word(text, 2)?)?;
    let val = value_of(rest(text, 3)?)?;
    Some(Item::Write { name, key, val })
}

#[tactic(auto, unfolding(crate::specs::Items::commit_of))]
fn commit(text: &[u8]) -> Option<Item>
    ensures { result ≡ commit_of text.now }
{
    let name = name_of(rest(text, 1)?)?;
    Some(Item::Commit { name })
}

#[tactic(auto, unfolding(crate::specs::Items::cancel_of))]
fn cancel(text: &[u8]) -> Option<Item>
    ensures { result ≡ cancel_of text.now }
{
    let name = name_of(rest(text, 1)?)?;
    Some(Item::Cancel { name })
}

#[tactic(auto, unfolding(crate::specs::Items::expire_of))]
fn expire(text: &[u8]) -> Option<Item>
    ensures { result ≡ expire_of text.now }
{
    let site = site(word(text, 1)?)?;
    let name = name_of(rest(text, 2)?)?;
    Some(Item::Expire { site, name })
}

#[tactic(auto, unfolding(crate::specs::Items::elect_of))]
fn elect(text: &[u8]) -> Option<Item>
    ensures { result ≡ elect_of text.now }
{
    let site = site(word(text, 1)?)?;
    let name = name_of(word(text, 2)?)?;
    let sites = sites(rest(text, 3)?)?;
    Some(Item::Elect { site, name, sites })
}

#[tactic(auto, unfolding(crate::specs::Items::recover_of))]
fn recover(text: &[u8]) -> Option<Item>
    ensures { result ≡ recover_of text.now }
{
    let sites = sites(rest(text, 1)?)?;
    Some(Item::Recover { sites })
}

#[tactic(auto, unfolding(crate::specs::Items::merge_of))]
fn merge(text: &[u8]) -> Option<Item>
    ensures { result ≡ merge_of text.now }
{
    if is_text(text, "merge") {
        Some(Item::Merge)
    } else {
        None
    }
}

#[tactic(auto, unfolding(crate::specs::Items::crash_of))]
fn crash(text: &[u8]) -> Option<Item>
    ensures { result ≡ crash_of text.now }
{
    let site = site(rest(text, 1)?)?;
    Some(Item::Crash { site })
}

#[tactic(auto, unfolding(crate::specs::Items::restart_of))]
fn restart(text: &[u8]) -> Option<Item>
    ensures { result ≡ restart_of text.now }
{
    let site = site(rest(text, 1)?)?;
    Some(Item::Restart { site })
}

#[tactic(auto, unfolding(crate::specs::Items::stop_of))]
fn stop(text: &[u8]) -> Option<Item>
    ensures { result ≡ stop_of text.now }
{
    let site = site(word(text, 1)?)?;
    let count = count(word(text, 2)?)?;
    let leave = leave(rest(text, 3)?)?;
    Some(Item::Stop { site, count, leave })
}

#[tactic(auto, unfolding(crate::specs::Items::split_of))]
fn split(alloc: Global, text: &[u8]) -> Result<Option<Item>, NoMemory>
    ensures { IfOk result (λ item. item ≡ split_of text.now) }
{
    let Some(text) = rest(text, 1) else {
        return Ok(None);
    };
    match parts(alloc, text)? {
        Some(parts) => Ok(Some(Item::Split { parts })),
        None => Ok(None),
    }
}

#[tactic(auto, unfolding(crate::specs::Items::transaction_item))]
fn transaction_item(verb: &[u8], text: &[u8]) -> Option<Item>
    ensures { result ≡ transaction_item verb.now text.now }
{
    if is_text(verb, "begin") {
        begin(text)
    } else if is_text(verb, "read") {
        read(text)
    } else if is_text(verb, "write") {
        write(text)
    } else if is_text(verb, "commit") {
        commit(text)
    } else if is_text(verb, "cancel") {
        cancel(text)
    } else if is_text(verb, "expire") {
        expire(text)
    } else if is_text(verb, "elect") {
        elect(text)
    } else {
        None
    }
}

#[tactic(auto, unfolding(crate::specs::Items::site_item))]
fn site_item(verb: &[u8], text: &[u8]) -> Option<Item>
    ensures { result ≡ site_item verb.now text.now }
{
    if is_text(verb, "recover") {
        recover(text)
    } else if is_text(verb, "merge") {
        merge(text)
    } else if is_text(verb, "crash") {
        crash(text)
    } else if is_text(verb, "restart") {
        restart(text)
    } else if is_text(verb, "stop") {
        stop(text)
    } else {
        None
    }
}

#[tactic(auto, unfolding(crate::specs::Items::item_by))]
fn item_by(alloc: Global, verb: &[u8], text: &[u8]) -> Result<Option<Item>, NoMemory>
    ensures { IfOk result (λ item. item ≡ item_by verb.now text.now) }
{
    if is_text(verb, "split") {
        return split(alloc, text);
    }
    match transaction_item(verb, text) {
        Some(item) => Ok(Some(item)),
        None => Ok(site_item(verb, text)),
    }
}

/// The item that a text spells.
#[tactic(auto, unfolding(crate::specs::Items::item_of))]
pub fn item(alloc: Global, text: &[u8]) -> Result<Option<Item>, NoMemory>
    ensures { IfOk result (λ item. item ≡ item_of text.now) }
{
    if is_all_printable(text) {
        item_by(alloc, before(text, SPACE), text)
    } else {
        Ok(None)
    }
}
