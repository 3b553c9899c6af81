// Reads a specification key by key, in the order of its faults.
ghost use Rattle.std.specs.Prelude.{◌≡◌, ◌∷◌, [], Ok, pos, option_map, codes};
ghost use Rattle.std.specs.List.{list_any};
ghost use Rattle.std.specs.Str.{bytes_eq};
ghost use Rattle.toml.specs.Data.{get_member};
ghost use Rattle.toml.specs.View.{view, table_view};
ghost use Rattle.wm_program.specs.Settings.{settings_of};
ghost use Rattle.wm_spec.specs.Kinds.{test_of};
ghost use Rattle.wm_spec.specs.Read.{read_of, settings_in, values_of, has_source, known_keys, is_known, optional, count_in, sources_at, frames_at, frame_us_at, steps_at, pack_at, ranges_at};
ghost use Rattle.wm_spec.specs.Seen.{Gives, same, ranges_of, option_members, IsMissing};
ghost use Rattle.wm_spec.specs.Values.{text_in};
ghost use Rattle.wm_spec.specs.Inputs.{members_in};

use crate::fault::{SpecFault, bad_value};
use crate::inputs::{pack_in, ranges_in};
use crate::lists::{frames_in, sources_in};
use crate::values::{Kind, number_in, text_in};
use std::alloc::Global;
use toml::{Table, Value};
use wm_lang::Name;
use wm_ops::List;
use wm_program::{RangeOf, Spec};
use wm_toml::{TableFault, read_table};

/// The keys that a specification may have.
const KEYS: [&str; 9] = [
    "source",
    "weights",
    "certificate",
    "init",
    "frame",
    "frame_us",
    "steps",
    "pack",
    "range",
];

/// The specification of a TOML document.
///
/// The faults come in this order: `NotToml`; `MissingKey` where there is no `source`; `UnknownKey` for the
/// first key in byte order that a specification has not; `BadValue` for the first key, in the order of
/// `source`, `weights`, `certificate`, `init`, `frame`, `frame_us`, `steps`, `pack` and `range`, whose
/// value is not what stands there.
pub fn read_spec(alloc: Global, bytes: &[u8]) -> Result<Spec, SpecFault>
    ensures spec { Gives settings_of result (read_of bytes.now) }
{
    match read_table(alloc, bytes) {
        Ok(table) => spec_of_table(alloc, &table),
        Err(TableFault::NotToml) => Err(SpecFault::NotToml),
        Err(TableFault::NoMemory) => Err(SpecFault::NoMemory),
    }
}

#[tactic(auto, unfolding(crate::specs::Read::settings_in))]
fn spec_of_table(alloc: Global, table: &Table) -> Result<Spec, SpecFault>
    ensures { Gives settings_of result (settings_in (table_view table.now)) }
{
    require_source(alloc, table)?;
    known_keys(alloc, table)?;
    values_of(alloc, table)
}

#[tactic(auto, unfolding(crate::specs::Read::values_of))]
fn values_of(alloc: Global, table: &Table) -> Result<Spec, SpecFault>
    ensures { Gives settings_of result (values_of (table_view table.now)) }
{
    let sources = sources_at(alloc, table)?;
    let weights = text_at(alloc, table, Kind::File, "weights")?;
    let certificate = text_at(alloc, table, Kind::File, "certificate")?;
    let init = text_at(alloc, table, Kind::Name, "init")?;
    let frames = frames_at(alloc, table)?;
    let frame_us = frame_us_at(alloc, table)?;
    let steps = steps_at(alloc, table)?;
    let pack = pack_at(alloc, table)?;
    let ranges = ranges_at(alloc, table)?;
    Ok(Spec {
        sources,
        weights,
        certificate,
        init,
        frames,
        frame_us,
        pack,
        steps,
        ranges,
    })
}

/// Refuses a table without `source`.
#[tactic(auto, using(crate::proofs::Faults::missing_fails))]
fn require_source(alloc: Global, table: &Table) -> Result<(), SpecFault>
    ensures { Gives same result (has_source (table_view table.now)) }
{
    match value_at(table, "source") {
        Some(_) => Ok(()),
        None => Err(missing_key(alloc, "source")),
    }
}

/// Refuses a table with a key that a specification has not.
fn known_keys(alloc: Global, table: &Table) -> Result<(), SpecFault>
    ensures { Gives same result (known_keys (table_view table.now)) }
{
    'keys: for (key, _) in table.iter() {
        let key = key.as_str();
        if !is_known(key) {
            return match Name::new(alloc, key.as_bytes()) {
                Ok(key) => Err(SpecFault::UnknownKey { key }),
                Err(_) => Err(SpecFault::NoMemory),
            };
        }
    }
    Ok(())
}

fn is_known(key: &str) -> bool
    ensures { result ≡ is_known key.now }
{
    is_among(key, &KEYS)
}

/// Whether a key is one of these.
fn is_among(key: &str, keys: &[&str]) -> bool
    ensures { result ≡ list_any (λ known. bytes_eq known.now key.now) keys.now }
{
    for known in keys {
        if *known == key {
            return true;
        }
    }
    false
}

/// The value at a key.
fn value_at<'t>(table: &'t Table, key: &str) -> Option<&'t Value>
    ensures { option_map (λ value. view value.now) result ≡ get_member key.now (table_view table.now) }
{
    table.get(key)
}

/// The fault of a key that has to be there.
fn missing_key(alloc: Global, key: &str) -> SpecFault
    ensures { IsMissing result key.now }
{
    match Name::new(alloc, key.as_bytes()) {
        Ok(key) => SpecFault::MissingKey { key },
        Err(_) => SpecFault::NoMemory,
    }
}

/// The text at a key that may be absent.
#[tactic(auto, using(crate::proofs::Faults::bad_fails))]
fn text_at(alloc: Global, table: &Table, kind: Kind, key: &str) -> Result<Option<Name>, SpecFault>
    ensures { Gives same result (optional key.now (text_in (test_of kind)) (get_member key.now (table_view table.now))) }
{
    let Some(value) = value_at(table, key) else {
        return Ok(None);
    };
    let Some(text) = text_in(kind, value) else {
        return Err(bad_value(alloc, key));
    };
    match Name::new(alloc, text) {
        Ok(name) => Ok(Some(name)),
        Err(_) => Err(SpecFault::NoMemory),
    }
}

/// The count at a key, from 1 to `most`; None where the key is absent.
#[tactic(auto, using(crate::proofs::Faults::bad_fails))]
fn count_at(alloc: Global, table: &Table, most: u32, key: &str) -> Result<Option<u32>, SpecFault>
    ensures { Gives same result (optional key.now (count_in (pos most)) (get_member key.now (table_view table.now))) }
{
    let Some(value) = value_at(table, key) else {
        return Ok(None);
    };
    match number_in(1, most as i64, value) {
        Some(count) => Ok(Some(count as u32)),
        None => Err(bad_value(alloc, key)),
    }
}

#[tactic(auto, using(crate::proofs::Faults::bad_fails, crate::proofs::Faults::missing_fails))]
fn sources_at(alloc: Global, table: &Table) -> Result<List<Name>, SpecFault>
    ensures { Gives same result (sources_at (table_view table.now)) }
{
    let Some(value) = value_at(table, "source") else {
        return Err(missing_key(alloc, "source"));
    };
    match sources_in(alloc, value) {
        Ok(Some(sources)) => Ok(sources),
        Ok(None) => Err(bad_value(alloc, "source")),
        Err(_) => Err(SpecFault::NoMemory),
    }
}

#[tactic(auto, using(crate::proofs::Faults::bad_fails))]
fn frames_at(alloc: Global, table: &Table) -> Result<List<Name>, SpecFault>
    ensures { Gives same result (frames_at (table_view table.now)) }
{
    let Some(value) = value_at(table, "frame") else {
        return frame_alone(alloc);
    };
    match frames_in(alloc, value) {
        Ok(Some(frames)) => Ok(frames),
        Ok(None) => Err(bad_value(alloc, "frame")),
        Err(_) => Err(SpecFault::NoMemory),
    }
}

/// The frame function where a specification names none: `frame`.
fn frame_alone(alloc: Global) -> Result<List<Name>, SpecFault>
    ensures { Gives same result (Ok (codes "frame" ∷ [])) }
{
    let mut frames = List::new(alloc);
    match Name::new(alloc, b"frame") {
        Ok(name) => match frames.push(name) {
            Ok(()) => Ok(frames),
            Err(_) => Err(SpecFault::NoMemory),
        },
        Err(_) => Err(SpecFault::NoMemory),
    }
}

/// The greatest length of a frame, in microseconds.
const LONGEST_FRAME: u32 = 1_000_000;

fn frame_us_at(alloc: Global, table: &Table) -> Result<Option<u32>, SpecFault>
    ensures { Gives same result (frame_us_at (table_view table.now)) }
{
    count_at(alloc, table, LONGEST_FRAME, "frame_us")
}

/// The greatest number of steps of a frame, and the number where a specification gives none.
const MOST_STEPS: u32 = 1_000_000_000;

const USUAL_STEPS: u64 = 1_000_000;

fn steps_at(alloc: Global, table: &Table) -> Result<u64, SpecFault>
    ensures { Gives same result (steps_at (table_view table.now)) }
{
    match count_at(alloc, table, MOST_STEPS, "steps") {
        Ok(Some(steps)) => Ok(steps as u64),
        Ok(None) => Ok(USUAL_STEPS),
        Err(fault) => Err(fault),
    }
}

#[tactic(auto, using(crate::proofs::Faults::bad_fails))]
fn pack_at(alloc: Global, table: &Table) -> Result<Option<List<Name>>, SpecFault>
    ensures { Gives same result (pack_at (table_view table.now)) }
{
    let Some(value) = value_at(table, "pack") else {
        return Ok(None);
    };
    match pack_in(alloc, ranges_table(table), value) {
        Ok(Some(names)) => Ok(Some(names)),
        Ok(None) => Err(bad_value(alloc, "pack")),
        Err(_) => Err(SpecFault::NoMemory),
    }
}

/// The table at `range`, where there is one.
fn ranges_table(table: &Table) -> Option<&Table>
    ensures { option_members result ≡ members_in (get_member (codes "range") (table_view table.now)) }
{
    match value_at(table, "range") {
        Some(value) => value.as_table(),
        None => None,
    }
}

#[tactic(auto, using(crate::proofs::Faults::bad_fails))]
fn ranges_at(alloc: Global, table: &Table) -> Result<List<RangeOf>, SpecFault>
    ensures { Gives ranges_of result (ranges_at (table_view table.now)) }
{
    let Some(value) = value_at(table, "range") else {
        return Ok(List::new(alloc));
    };
    match ranges_in(alloc, value) {
        Ok(Some(ranges)) => Ok(ranges),
        Ok(None) => Err(bad_value(alloc, "range")),
        Err(_) => Err(SpecFault::NoMemory),
    }
}
