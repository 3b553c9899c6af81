// Lists of texts: file names of sources, names of functions and inputs.
ghost use Rattle.std.specs.Prelude.{◌≡◌, ◌∷◌, [], IfOk, option_map};
ghost use Rattle.toml.specs.View.{view, array_view};
ghost use Rattle.wm_spec.specs.Kinds.{test_of};
ghost use Rattle.wm_spec.specs.Lists.{more_texts, all_new, counted, sources_in, frames_in};
ghost use Rattle.wm_spec.specs.Seen.{Finds, same, IsSetOf};
ghost use Rattle.wm_spec.specs.Values.{text_in};

use crate::values::{Kind, text_in};
use std::alloc::Global;
use std::collections::BTreeSet;
use toml::Value;
use toml::value::Array;
use wm_lang::Name;
use wm_ops::{List, NoMemory};

/// The names of the source files: one, or a list of 1 to 64.
pub(crate) fn sources_in(alloc: Global, value: &Value) -> Result<Option<List<Name>>, NoMemory>
    ensures { Finds same result (sources_in (view value.now)) }
{
    match value {
        Value::Array(items) => match texts_in(alloc, Kind::File, items)? {
            Some(texts) => Ok(counted(1, 64, texts)),
            None => Ok(None),
        },
        _ => one_text(alloc, Kind::File, value),
    }
}

/// The frame functions: one, or a list of 2 to 16 different ones.
pub(crate) fn frames_in(alloc: Global, value: &Value) -> Result<Option<List<Name>>, NoMemory>
    ensures { Finds same result (frames_in (view value.now)) }
{
    match value {
        Value::Array(items) => {
            let Some(names) = texts_in(alloc, Kind::Name, items)? else {
                return Ok(None);
            };
            let Some(names) = counted(2, 16, names) else {
                return Ok(None);
            };
            if are_different(alloc, names.items())? {
                Ok(Some(names))
            } else {
                Ok(None)
            }
        }
        _ => one_text(alloc, Kind::Name, value),
    }
}

/// A list of the one text of a value.
fn one_text(alloc: Global, kind: Kind, value: &Value) -> Result<Option<List<Name>>, NoMemory>
    ensures { Finds same result (option_map (λ text. text ∷ []) (text_in (test_of kind) (view value.now))) }
{
    let Some(text) = text_in(kind, value) else {
        return Ok(None);
    };
    let mut texts = List::new(alloc);
    texts.push(Name::new(alloc, text)?)?;
    Ok(Some(texts))
}

/// The texts of the items, where each may stand for this.
pub(crate) fn texts_in(
    alloc: Global,
    kind: Kind,
    items: &Array,
) -> Result<Option<List<Name>>, NoMemory>
    ensures { Finds same result (more_texts (test_of kind) [] (array_view items.now)) }
{
    let items = items.as_slice();
    let mut texts = List::new(alloc);
    for item in items {
        let Some(text) = text_in(kind, item) else {
            return Ok(None);
        };
        texts.push(Name::new(alloc, text)?)?;
    }
    Ok(Some(texts))
}

/// The texts, where there are from `least` to `most` of them.
fn counted(least: usize, most: usize, texts: List<Name>) -> Option<List<Name>>
    ensures { result ≡ counted least most texts }
{
    let count = texts.items().len();
    if least <= count && count <= most {
        Some(texts)
    } else {
        None
    }
}

fn are_different(alloc: Global, names: &[Name]) -> Result<bool, NoMemory>
    ensures { IfOk result (λ different. different ≡ all_new [] names.now) }
{
    let names = set_of(alloc, names)?;
    Ok(names.is_some())
}

/// The set of the names; None where a name stands twice.
pub(crate) fn set_of(alloc: Global, names: &[Name]) -> Result<Option<BTreeSet<&[u8]>>, NoMemory>
    ensures { IfOk result (IsSetOf names.now) }
{
    let mut set = BTreeSet::new(alloc);
    for name in names {
        if !set.insert(name.bytes())? {
            return Ok(None);
        }
    }
    Ok(Some(set))
}
