// Reads a weights file, key by key in byte order.
ghost use Rattle.std.specs.Prelude.{◌≡◌};
ghost use Rattle.toml.specs.View.{view, table_view};
ghost use Rattle.wm_weights.specs.Given.{read_of, weights_of, with_key, word_of, weight_in, small, Gives, ReadsKey, names_round};

use crate::fault::WeightFault;
use crate::weights::Weights;
use std::alloc::Global;
use toml::{Table, Value};
use wm_lang::Name;
use wm_ops::{Counted, counted_by_name};
use wm_toml::{TableFault, read_table};

/// The greatest weight.
const GREATEST: i64 = 10_000;

/// The weights of a file: a TOML table from counted words to whole numbers from 0 to 10,000, where
/// `round_fx` stands for `round`.
///
/// `NotToml` comes first; then the first key in byte order that is wrong: `BadKey` where it is no counted
/// word, or is `round_fx` beside `round`, else `BadNumber` where its value is no such number.
pub fn read_weights(alloc: Global, bytes: &[u8]) -> Result<Weights, WeightFault>
    ensures weights { Gives result (read_of bytes.now) }
{
    match read_table(alloc, bytes) {
        Ok(table) => weights_of_table(alloc, &table),
        Err(TableFault::NotToml) => Err(WeightFault::NotToml),
        Err(TableFault::NoMemory) => Err(WeightFault::NoMemory),
    }
}

fn weights_of_table(alloc: Global, table: &Table) -> Result<Weights, WeightFault>
    ensures { Gives result (weights_of (table_view table.now)) }
{
    let has_round = names_round(table);
    let mut weights = Weights::none();
    'keys: for (key, value) in table.iter() {
        match read_key(alloc, has_round, key.as_str().as_bytes(), value) {
            Ok((word, weight)) => weights.set(word, weight),
            Err(fault) => return Err(fault),
        }
    }
    Ok(weights)
}

/// Whether `round` is a key.
fn names_round(table: &Table) -> bool
    ensures { result ≡ names_round (table_view table.now) }
{
    table.get("round").is_some()
}

/// The word of a key and the weight of its value.
fn read_key(
    alloc: Global,
    has_round: bool,
    key: &[u8],
    value: &Value,
) -> Result<(Counted, u32), WeightFault>
    ensures { ReadsKey result (word_of has_round key.now) key.now (weight_in (view value.now)) }
{
    let Some(word) = word_of_key(has_round, key) else {
        let key = Name::new(alloc, key)?;
        return Err(WeightFault::BadKey { key });
    };
    let Some(weight) = weight_of_value(value) else {
        let key = Name::new(alloc, key)?;
        return Err(WeightFault::BadNumber { key });
    };
    Ok((word, weight))
}

/// The counted word of a key; `round_fx` names none beside `round`.
fn word_of_key(has_round: bool, key: &[u8]) -> Option<Counted>
    ensures { result ≡ word_of has_round key.now }
{
    if has_round && key == b"round_fx".as_slice() {
        return None;
    }
    counted_by_name(key)
}

/// The weight that a value gives.
fn weight_of_value(value: &Value) -> Option<u32>
    ensures { result ≡ weight_in (view value.now) }
{
    match value {
        Value::Integer(number) => small(*number),
        _ => None,
    }
}

/// A whole number from 0 to 10,000.
fn small(number: i64) -> Option<u32>
    ensures { result ≡ small number }
{
    if 0 <= number && number <= GREATEST {
        Some(number as u32)
    } else {
        None
    }
}
