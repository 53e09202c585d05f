// The document of a scenario, and the values at its keys.
ghost use Rattle.std.specs.Prelude.{◌≡◌, ◌≤◌, [], IfOk, IfSome, IsTrue, length, map, option_map, string_bytes};
ghost use Rattle.std.specs.BTreeMap.{keys};
ghost use Rattle.std.specs.List.{list_all};
ghost use Rattle.toml.specs.Data.{as_integer, get_member};
ghost use Rattle.toml.specs.View.{view, table_view};
ghost use Rattle.e3_scenario.specs.Documents.{is_known, keys_known, values_of, is_integer, is_text, is_texts, is_step, is_kind, has_kind, kind_fault, weight_of, more_weights, weights_of, row_of, row_in, more_rows, number_at, share_at, luck_at, values_or_none, values_at, step_size, sizes_fit, steps_fit};

use crate::faults::Field;
use crate::parts::key;
use crate::words::{SPACE, after, before, is_all_printable};
use e3_report::lines::value_of;
use e3_types::{KeyRow, List, NoMemory, SiteSet};
use std::alloc::Global;
use toml::{Table, Value};

const MOST_WEIGHTS: usize = 16;

/// The kind of the value at a key.
#[derive(Clone, Copy)]
pub enum Kind {
    Integer,
    Integers,
    Texts,
    Steps,
}

#[tactic(auto, unfolding(crate::specs::Documents::is_known))]
fn is_known(key: &str) -> bool
    ensures { result ≡ is_known key.now }
{
    key == "weights"
        || key == "rows"
        || key == "loss"
        || key == "repeat"
        || key == "luck"
        || key == "steps"
}

fn all_known(table: &Table) -> bool
    ensures { result ≡ list_all (λ key. is_known (string_bytes key)) (keys table.now) }
{
    table.keys().all(|key| is_known(key.as_str()))
}

/// Each key is one of the six.
pub fn keys_known(table: &Table) -> bool
    ensures { result ≡ keys_known (table_view table.now) }
{
    all_known(table)
}

/// The value at a key.
pub fn value_at<'a>(table: &'a Table, key: &str) -> Option<&'a Value>
    ensures { option_map (λ v. view v.now) result ≡ get_member key.now (table_view table.now) }
{
    table.get(key)
}

/// The values of an array.
#[tactic(auto, using(crate::proofs::Values::values_in_view))]
pub fn values(value: &Value) -> Option<&[Value]>
    ensures { option_map (λ vs. map view vs.now) result ≡ values_of (view value.now) }
{
    match value.as_array() {
        None => None,
        Some(values) => Some(values.as_slice()),
    }
}

fn is_integer(value: &Value) -> bool
    ensures { result ≡ is_integer (view value.now) }
{
    value.as_integer().is_some()
}

fn is_text(value: &Value) -> bool
    ensures { result ≡ is_text (view value.now) }
{
    value.as_str().is_some()
}

fn are_integers(values: &[Value]) -> bool
    ensures { result ≡ list_all (λ value. is_integer (view value)) values.now }
{
    values.iter().all(|value| is_integer(value))
}

fn are_texts(values: &[Value]) -> bool
    ensures { result ≡ list_all (λ value. is_text (view value)) values.now }
{
    values.iter().all(|value| is_text(value))
}

#[tactic(auto, using(crate::proofs::Values::all_values))]
fn is_texts(value: &Value) -> bool
    ensures { result ≡ is_texts (view value.now) }
{
    match values(value) {
        None => false,
        Some(values) => are_texts(values),
    }
}

fn is_step(value: &Value) -> bool
    ensures { result ≡ is_step (view value.now) }
{
    is_text(value) || is_texts(value)
}

fn are_steps(values: &[Value]) -> bool
    ensures { result ≡ list_all (λ value. is_step (view value)) values.now }
{
    values.iter().all(|value| is_step(value))
}

#[tactic(auto, using(crate::proofs::Values::all_values))]
fn is_kind(kind: Kind, value: &Value) -> bool
    ensures { result ≡ is_kind kind (view value.now) }
{
    match kind {
        Kind::Integer => is_integer(value),
        Kind::Integers => match values(value) {
            None => false,
            Some(values) => are_integers(values),
        },
        Kind::Texts => is_texts(value),
        Kind::Steps => match values(value) {
            None => false,
            Some(values) => are_steps(values),
        },
    }
}

fn has_kind(table: &Table, key: &str, optional: bool, kind: Kind) -> bool
    ensures { result ≡ has_kind (table_view table.now) key.now optional kind }
{
    match value_at(table, key) {
        None => optional,
        Some(value) => is_kind(kind, value),
    }
}

/// The first field of another kind than its own.
pub fn kind_fault(table: &Table) -> Option<Field>
    ensures { result ≡ kind_fault (table_view table.now) }
{
    if !has_kind(table, "weights", false, Kind::Integers) {
        Some(Field::Weights)
    } else if !has_kind(table, "rows", true, Kind::Texts) {
        Some(Field::Rows)
    } else if !has_kind(table, "loss", true, Kind::Integer) {
        Some(Field::Loss)
    } else if !has_kind(table, "repeat", true, Kind::Integer) {
        Some(Field::Repeat)
    } else if !has_kind(table, "luck", true, Kind::Integer) {
        Some(Field::Luck)
    } else if !has_kind(table, "steps", false, Kind::Steps) {
        Some(Field::Steps)
    } else {
        None
    }
}

fn weight(value: &Value) -> Option<u32>
    ensures { result ≡ weight_of (view value.now) }
{
    let number = value.as_integer()?;
    if 1 <= number && number <= 1000 {
        Some(number as u32)
    } else {
        None
    }
}

#[tactic(auto, using(crate::proofs::Values::next_value))]
fn more_weights(alloc: Global, values: &[Value]) -> Result<Option<List<u32>>, NoMemory>
    ensures value { IfOk result (λ weights. weights ≡ more_weights [] (map view values.now)) }
    ensures count { IfOk result (λ weights. IfSome weights (λ ws. length ws ≡ length values.now)) }
{
    let mut weights = List::new(alloc);
    for value in values {
        match weight(value) {
            None => {
                drop(weights);
                return Ok(None);
            }
            Some(weight) => {
                if weights.push(weight).is_err() {
                    drop(weights);
                    return Err(NoMemory);
                }
            }
        }
    }
    Ok(Some(weights))
}

/// 1 to 16 weights.
#[tactic(auto, using(crate::proofs::Values::length_view))]
pub fn weights(alloc: Global, values: &[Value]) -> Result<Option<List<u32>>, NoMemory>
    ensures value { IfOk result (λ weights. weights ≡ weights_of (map view values.now)) }
    ensures few { IfOk result (λ weights. IfSome weights (λ ws. length ws ≤ 16)) }
{
    if 1 <= values.len() && values.len() <= MOST_WEIGHTS {
        more_weights(alloc, values)
    } else {
        Ok(None)
    }
}

fn row(all: SiteSet, text: &[u8]) -> Option<KeyRow>
    ensures { result ≡ row_of all text.now }
{
    if !is_all_printable(text) {
        return None;
    }
    let key = key(before(text, SPACE))?;
    let val = value_of(after(text, SPACE)?)?;
    if all.has(key.site) {
        Some(KeyRow { key, val })
    } else {
        None
    }
}

fn row_in(all: SiteSet, value: &Value) -> Option<KeyRow>
    ensures { result ≡ row_in all (view value.now) }
{
    match value.as_str() {
        Some(text) => row(all, text.as_bytes()),
        None => None,
    }
}

/// Rows at these sites.
#[tactic(auto, using(crate::proofs::Values::next_value))]
pub fn rows(alloc: Global, all: SiteSet, values: &[Value]) -> Result<Option<List<KeyRow>>, NoMemory>
    ensures { IfOk result (λ rows. rows ≡ more_rows all [] (map view values.now)) }
{
    let mut rows = List::new(alloc);
    // (handed to `drop`, they are given back by one call)
    if rows.reserve(values.len() as u64).is_err() {
        drop(rows);
        return Err(NoMemory);
    }
    for value in values {
        match row_in(all, value) {
            None => {
                drop(rows);
                return Ok(None);
            }
            Some(row) => {
                if rows.push(row).is_err() {
                    drop(rows);
                    return Err(NoMemory);
                }
            }
        }
    }
    Ok(Some(rows))
}

// A number from 0 to `most`, 0 where it is left out.
fn number_at(table: &Table, key: &str, most: u64) -> Option<u64>
    ensures value { result ≡ number_at most (table_view table.now) key.now }
    ensures within { IfSome result (λ number. number ≤ most) }
{
    match value_at(table, key) {
        None => Some(0),
        Some(value) => match value.as_integer() {
            Some(number) if 0 <= number && number as u64 <= most => Some(number as u64),
            _ => None,
        },
    }
}

/// A share of a hundred, 0 where it is left out.
pub fn share_at(table: &Table, key: &str) -> Option<u32>
    ensures value { result ≡ share_at (table_view table.now) key.now }
    ensures few { IfSome result (λ share. share ≤ 100) }
{
    let share = number_at(table, key, 100)?;
    Some(share as u32)
}

/// The luck, 0 where it is left out.
pub fn luck_at(table: &Table) -> Option<u64>
    ensures { result ≡ luck_at (table_view table.now) }
{
    number_at(table, "luck", 9223372036854775807)
}

fn values_or_none(value: &Value) -> &[Value]
    ensures { map view result.now ≡ values_or_none (view value.now) }
{
    match values(value) {
        None => &[],
        Some(values) => values,
    }
}

/// The values of the array at a key; none where there is no array.
pub fn values_at<'a>(table: &'a Table, key: &str) -> &'a [Value]
    ensures { map view result.now ≡ values_at (table_view table.now) key.now }
{
    match value_at(table, key) {
        None => &[],
        Some(value) => values_or_none(value),
    }
}

// The most steps, and the most items of all of them.
const MOST_STEPS: usize = 10_000;

const MOST_GROUPED: usize = 16;

#[tactic(auto, using(crate::proofs::Values::length_view))]
fn step_size(value: &Value) -> usize
    ensures { result ≡ step_size (view value.now) }
{
    match values(value) {
        None => 1,
        Some(values) => values.len(),
    }
}

#[tactic(auto, using(crate::proofs::Values::next_value))]
fn sizes_fit(values: &[Value]) -> bool
    ensures { result ≡ sizes_fit 10000 (map view values.now) }
{
    let mut room = MOST_STEPS;
    for value in values {
        let size = step_size(value);
        if size < 1 || MOST_GROUPED < size || room < size {
            return false;
        }
        room -= size;
    }
    true
}

/// At most 10,000 steps, with at most 10,000 items.
#[tactic(auto, using(crate::proofs::Values::length_view))]
pub fn steps_fit(values: &[Value]) -> bool
    ensures value { result ≡ steps_fit (map view values.now) }
    ensures few { IsTrue result → length values.now ≤ 10000 }
{
    values.len() <= MOST_STEPS && sizes_fit(values)
}
