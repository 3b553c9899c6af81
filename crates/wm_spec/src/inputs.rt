// The ranges of the inputs, and their order in a sample file.
ghost use Rattle.std.specs.Prelude.{◌≡◌, ◌==◌, ℕ, List, [], length, IfOk, option_map};
ghost use Rattle.toml.specs.View.{view, table_view};
ghost use Rattle.wm_spec.specs.Inputs.{bounds_in, word_in, pair_in, range_in, more_ranges, ranges_in, members_in, pack_in, packed, are_the_keys, keys_among, count_of};
ghost use Rattle.wm_spec.specs.Seen.{Finds, same, ranges_of, bounds_of, option_members, HasTexts};
ghost use Rattle.wm_program.specs.Settings.{range_of};

use crate::lists::{set_of, texts_in};
use crate::values::{Kind, number_in};
use std::alloc::Global;
use std::collections::BTreeSet;
use toml::{Table, Value};
use wm_interval::Interval;
use wm_lang::Name;
use wm_ops::{List, NoMemory};
use wm_program::RangeOf;

/// The ranges of a table, in the byte order of its keys.
pub(crate) fn ranges_in(alloc: Global, value: &Value) -> Result<Option<List<RangeOf>>, NoMemory>
    ensures { Finds ranges_of result (ranges_in (view value.now)) }
{
    match value {
        Value::Table(table) => ranges_of_table(alloc, table),
        _ => Ok(None),
    }
}

fn ranges_of_table(alloc: Global, table: &Table) -> Result<Option<List<RangeOf>>, NoMemory>
    ensures { Finds ranges_of result (more_ranges [] (table_view table.now)) }
{
    let mut ranges = List::new(alloc);
    'keys: for (key, value) in table.iter() {
        match range_in(alloc, key.as_str().as_bytes(), value) {
            Ok(Some(range)) => {
                if ranges.push(range).is_err() {
                    return Err(NoMemory);
                }
            }
            Ok(None) => return Ok(None),
            Err(refused) => return Err(refused),
        }
    }
    Ok(Some(ranges))
}

/// The range of a key, where the key is a name and its value a range.
fn range_in(alloc: Global, key: &[u8], value: &Value) -> Result<Option<RangeOf>, NoMemory>
    ensures { Finds range_of result (range_in key.now (view value.now)) }
{
    if !Kind::Name.takes(key) {
        return Ok(None);
    }
    let Some(range) = bounds_in(value) else {
        return Ok(None);
    };
    match Name::new(alloc, key) {
        Ok(name) => Ok(Some(RangeOf { name, range })),
        Err(refused) => Err(refused),
    }
}

/// A list of two numbers of 32 bits, the first at most the second.
fn bounds_in(value: &Value) -> Option<Interval>
    ensures { option_map bounds_of result ≡ bounds_in (view value.now) }
{
    let Value::Array(items) = value else {
        return None;
    };
    match items.as_slice() {
        [low, high] => pair_in(word_in(low), word_in(high)),
        _ => None,
    }
}

fn word_in(value: &Value) -> Option<i64>
    ensures { result ≡ word_in (view value.now) }
{
    number_in(-2147483648, 2147483647, value)
}

fn pair_in(low: Option<i64>, high: Option<i64>) -> Option<Interval>
    ensures { option_map bounds_of result ≡ pair_in low high }
{
    match (low, high) {
        (Some(low), Some(high)) if low <= high => Some(Interval::new(low, high)),
        _ => None,
    }
}

/// The order of the inputs: a list of names that has each key of the ranges once and no other.
pub(crate) fn pack_in(
    alloc: Global,
    ranges: Option<&Table>,
    value: &Value,
) -> Result<Option<List<Name>>, NoMemory>
    ensures { Finds same result (pack_in (option_members ranges.entry) (view value.now)) }
{
    let Value::Array(items) = value else {
        return Ok(None);
    };
    match texts_in(alloc, Kind::Name, items) {
        Ok(Some(names)) => packed(alloc, ranges, names),
        Ok(None) => Ok(None),
        Err(refused) => Err(refused),
    }
}

/// The names, where they are the keys of the ranges, each once.
fn packed(
    alloc: Global,
    ranges: Option<&Table>,
    names: List<Name>,
) -> Result<Option<List<Name>>, NoMemory>
    ensures { Finds same result (packed (option_members ranges.entry) names) }
{
    match are_the_keys(alloc, ranges, names.items()) {
        Ok(true) => Ok(Some(names)),
        Ok(false) => Ok(None),
        Err(refused) => Err(refused),
    }
}

fn are_the_keys(alloc: Global, ranges: Option<&Table>, names: &[Name]) -> Result<bool, NoMemory>
    ensures { IfOk result (λ all. all ≡ are_the_keys (option_members ranges.entry) names.now) }
{
    let set = match set_of(alloc, names) {
        Ok(Some(set)) => set,
        Ok(None) => return Ok(false),
        Err(refused) => return Err(refused),
    };
    match ranges {
        Some(table) => {
            if !is_as_long(names, table) {
                return Ok(false);
            }
            Ok(keys_among(table, &set))
        }
        None => Ok(names.is_empty()),
    }
}

/// Whether there are as many names as keys.
#[tactic(auto, using(crate::proofs::Tables::members_count))]
fn is_as_long(names: &[Name], table: &Table) -> bool
    ensures { result ≡ (length names.now == count_of (table_view table.now)) }
{
    names.len() == table.len()
}

/// Whether each key is in the set of the names.
fn keys_among(table: &Table, set: &BTreeSet<&[u8]>) -> bool
    ensures { (names : List (List ℕ)) → HasTexts set.now names → result ≡ keys_among (table_view table.now) names }
{
    'keys: for (key, _) in table.iter() {
        if !set.contains(key.as_str().as_bytes()) {
            return false;
        }
    }
    true
}
