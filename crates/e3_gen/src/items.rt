// The steps of a transaction.
ghost use Rattle.std.specs.Prelude.{◌≡◌, ◌≤◌, ◌++◌, ◌∷◌, [], ◌%◌, true, length, map, IsTrue, IfOk, OnOk};
ghost use Rattle.std.specs.Fmt.{decimal};
ghost use Rattle.std.specs.List.{list_all};
ghost use Rattle.e3_types.specs.Sets.{is_set};
ghost use Rattle.e3_types.specs.Text.{is_letter};
ghost use Rattle.e3_gen.specs.Generated.{step_of};
ghost use Rattle.e3_gen.specs.Items.{five, txn_name, coordinator, sites_of, fellow, key_of, operations, cut_off, crashed, stopped, last_items, items_at, items_of};

use crate::draws::{RecordWords, TxnWords};
use e3_report::Page;
use e3_types::{Item, Key, Leave, List, Name, NoMemory, SiteSet, Val};
use std::alloc::Global;

/// The steps of a scenario.
pub type Steps = List<List<Item>>;

// The name that a letter and a number behind it make. Want of memory is the only error.
#[tactic(auto, using(crate::proofs::Names::numbered_is_name))]
fn numbered(alloc: Global, letter: &str, number: u32) -> Result<Name, NoMemory>
    requires one { length letter.now ≡ 1 }
    requires letter { list_all is_letter letter.now ≡ true }
    ensures { IfOk result (λ name. name ≡ letter.now ++ decimal number) }
{
    let mut page = Page::new(alloc);
    page.labelled(letter, number as u64);
    let text = page.done()?;
    Ok(Name::new(text.as_slice()).unwrap())
}

// The digits of a number, as a value. Want of memory is the only error.
#[tactic(auto, using(crate::proofs::Names::decimal_is_value))]
fn value_of(alloc: Global, number: u32) -> Result<Val, NoMemory>
    ensures { IfOk result (λ val. val ≡ decimal number) }
{
    let mut page = Page::new(alloc);
    page.number(number as u64);
    let text = page.done()?;
    Ok(Val::new(text.as_slice()).unwrap())
}

#[tactic(auto, unfolding(crate::specs::Items::txn_name))]
fn txn_name(alloc: Global, j: u32) -> Result<Name, NoMemory>
    ensures { IfOk result (λ name. name ≡ txn_name j) }
{
    numbered(alloc, "t", j)
}

#[tactic(auto, unfolding(crate::specs::Items::key_of))]
fn key_of(alloc: Global, site: u32, word: u32) -> Result<Key, NoMemory>
    ensures { IfOk result (λ key. key ≡ key_of site word) }
{
    Ok(Key {
        site,
        name: numbered(alloc, "k", word % 100)?,
    })
}

fn set_of(sites: &[u32]) -> SiteSet
    requires { IsTrue (is_set sites.now) }
    ensures { result ≡ sites.now }
{
    SiteSet::of(sites).unwrap()
}

// All sites.
fn five() -> SiteSet
    ensures { result ≡ five }
{
    set_of(&[1, 2, 3, 4, 5])
}

// A coordinator and the next two sites, where 1 comes after 5.
fn sites_of(c: u32) -> SiteSet
    requires least { 1 ≤ c }
    requires most { c ≤ 5 }
    ensures { result ≡ sites_of c }
{
    match c {
        1 => set_of(&[1, 2, 3]),
        2 => set_of(&[2, 3, 4]),
        3 => set_of(&[3, 4, 5]),
        4 => set_of(&[1, 4, 5]),
        _ => set_of(&[1, 2, 5]),
    }
}

// The least site of the transaction other than the coordinator.
fn fellow(c: u32) -> u32
    requires least { 1 ≤ c }
    requires most { c ≤ 5 }
    ensures { result ≡ fellow c }
{
    match c {
        1 => 2,
        2 => 3,
        3 => 4,
        _ => 1,
    }
}

// Adds a step of one item.
fn add(alloc: Global, steps: &mut Steps, item: Item) -> Result<(), NoMemory>
    ensures { OnOk result (steps.new ≡ steps.old ++ step_of item ∷ []) }
{
    let mut items = List::new(alloc);
    items.push(item)?;
    steps.push(items)
}

// Adds a write and a read at each site. There are three, so it calls itself no deeper.
fn add_operations(
    alloc: Global,
    steps: &mut Steps,
    name: &Name,
    sites: SiteSet,
    records: &[RecordWords],
) -> Result<(), NoMemory>
    ensures { OnOk result (steps.new ≡ steps.old ++ map step_of (operations name.now records.now sites)) }
{
    match records {
        [words, more @ ..] => match sites.split_first() {
            Some((site, left)) => {
                let key = key_of(alloc, site, words.name)?;
                let val = value_of(alloc, words.value)?;
                add(
                    alloc,
                    steps,
                    Item::Write {
                        name: name.copy(),
                        key: key.copy(),
                        val,
                    },
                )?;
                add(
                    alloc,
                    steps,
                    Item::Read {
                        name: name.copy(),
                        key,
                    },
                )?;
                add_operations(alloc, steps, name, left, more)
            }
            None => Ok(()),
        },
        [] => Ok(()),
    }
}

fn add_cut_off(alloc: Global, steps: &mut Steps, name: &Name, c: u32) -> Result<(), NoMemory>
    requires least { 1 ≤ c }
    requires most { c ≤ 5 }
    ensures { OnOk result (steps.new ≡ steps.old ++ map step_of (cut_off name.now c)) }
{
    let sites = five().without(c);
    let mut parts = List::new(alloc);
    parts.push(SiteSet::one(c))?;
    parts.push(sites)?;
    add(alloc, steps, Item::Split { parts })?;
    add(alloc, steps, Item::Commit { name: name.copy() })?;
    add(alloc, steps, Item::Recover { sites })?;
    add(alloc, steps, Item::Merge)?;
    add(alloc, steps, Item::Recover { sites: five() })
}

fn add_crashed(alloc: Global, steps: &mut Steps, name: &Name, site: u32) -> Result<(), NoMemory>
    ensures { OnOk result (steps.new ≡ steps.old ++ map step_of (crashed name.now site)) }
{
    add(alloc, steps, Item::Crash { site })?;
    add(alloc, steps, Item::Restart { site })?;
    add(alloc, steps, Item::Commit { name: name.copy() })
}

fn add_stopped(alloc: Global, steps: &mut Steps, name: &Name, c: u32) -> Result<(), NoMemory>
    ensures { OnOk result (steps.new ≡ steps.old ++ map step_of (stopped name.now c)) }
{
    let leave = Leave::All;
    let sites = five().without(c);
    add(
        alloc,
        steps,
        Item::Stop {
            site: c,
            count: 8,
            leave,
        },
    )?;
    add(alloc, steps, Item::Commit { name: name.copy() })?;
    add(alloc, steps, Item::Recover { sites })?;
    add(alloc, steps, Item::Restart { site: c })?;
    add(alloc, steps, Item::Recover { sites: five() })
}

// Adds how the transaction ends.
fn add_last(
    alloc: Global,
    steps: &mut Steps,
    digit: u32,
    name: &Name,
    c: u32,
) -> Result<(), NoMemory>
    requires least { 1 ≤ c }
    requires most { c ≤ 5 }
    ensures { OnOk result (steps.new ≡ steps.old ++ map step_of (last_items digit name.now c)) }
{
    match digit {
        0 => add(alloc, steps, Item::Cancel { name: name.copy() }),
        3 => add_cut_off(alloc, steps, name, c),
        5 => add_crashed(alloc, steps, name, fellow(c)),
        7 => add_stopped(alloc, steps, name, c),
        _ => add(alloc, steps, Item::Commit { name: name.copy() }),
    }
}

fn add_items(
    alloc: Global,
    steps: &mut Steps,
    j: u32,
    c: u32,
    records: &[RecordWords],
) -> Result<(), NoMemory>
    requires least { 1 ≤ c }
    requires most { c ≤ 5 }
    ensures { OnOk result (steps.new ≡ steps.old ++ map step_of (items_at j c records.now)) }
{
    let name = txn_name(alloc, j)?;
    let sites = sites_of(c);
    add(
        alloc,
        steps,
        Item::Begin {
            name: name.copy(),
            site: c,
            sites,
        },
    )?;
    add_operations(alloc, steps, &name, sites, records)?;
    add_last(alloc, steps, j % 10, &name, c)
}

/// Adds the steps of the transaction with this number, from its words.
pub fn add_txn(alloc: Global, steps: &mut Steps, j: u32, words: &TxnWords) -> Result<(), NoMemory>
    ensures { OnOk result (steps.new ≡ steps.old ++ map step_of (items_of j words.now)) }
{
    add_items(alloc, steps, j, words.coordinator % 5 + 1, &words.records)
}
