// The variables of the shape between a call's node and the first node of the callee.
ghost use Rattle.std.specs.Prelude.{◌≡◌, ◌<◌, ◌≤◌, ◌^◌, ℕ, suc, length, slice_index_or, None, IfOk, OnOk, MatchBool};
ghost use Rattle.wm_middle.specs.Parting.{IsPartOf, AreParts, IsFound, IsFoundAmong, IsApart, caller_of, part_at};
ghost use Rattle.wm_middle.specs.declared.parts.Part.{Part};
ghost use Rattle.wm_middle.specs.declared.parts.Part.TheVariants.{Caller};

use std::alloc::Global;
use wm_ops::NoMemory;

/// A variable of the caller, or a parameter of the callee.
#[derive(Clone, Copy)]
pub enum Part {
    Caller(u32),
    Parameter(u32),
}

// whether the two are one
fn is_same(a: Part, b: Part) -> bool
    ensures { MatchBool result (a ≡ b) (a ≡ b → ⊥) }
{
    match a {
        Part::Caller(v) => match b {
            Part::Caller(w) => v == w,
            Part::Parameter(_w) => false,
        },
        Part::Parameter(v) => match b {
            Part::Caller(_w) => false,
            Part::Parameter(w) => v == w,
        },
    }
}

/// The place of a part among the first so many; None exactly where it is none of these.
pub(crate) fn find_among(parts: &[Part], count: usize, part: Part) -> Option<u32>
    requires few { length parts.now < 2 ^ 32 }
    requires inside { count ≤ length parts.now }
    ensures { IsFoundAmong count parts.now part result }
{
    for k in 0..count {
        if is_same(parts[k], part) {
            return Some(k as u32);
        }
    }
    None
}

/// The place of a part among fewer than 2^32; None exactly where it is none of them.
pub fn find(parts: &[Part], part: Part) -> Option<u32>
    requires few { length parts.now < 2 ^ 32 }
    ensures { IsFound parts.now part result }
{
    find_among(parts, parts.len(), part)
}

/// The place of a caller's variable, which stands at the place `next` as a rule; None exactly where it is none of the parts.
pub(crate) fn find_next(parts: &[Part], v: u32, next: usize) -> Option<u32>
    requires few { length parts.now < 2 ^ 32 }
    ensures { IsFound parts.now (Caller v) result }
{
    if next < parts.len() {
        if is_same(parts[next], Part::Caller(v)) {
            return Some(next as u32);
        }
    }
    find(parts, Part::Caller(v))
}

// puts a part behind the others
fn push_part(parts: &mut Vec<Part>, part: Part) -> Result<(), NoMemory>
    ensures long { OnOk result (length parts.new.items ≡ suc (length parts.old.items)) }
    ensures apart { OnOk result ((count : ℕ) (other : Part) → (part ≡ other → ⊥) → IsApart count parts.old.items other → IsApart count parts.new.items other) }
    ensures good { OnOk result ((n m most : ℕ) → length parts.old.items < most → IsPartOf n m part → IsFound parts.old.items part None → AreParts n m most parts.old.items → AreParts n m most parts.new.items) }
{
    parts.push(part)?;
    Ok(())
}

/// Puts a part behind the others, where it is none of the first so many of them and they are fewer than `most`. It must be
/// none of those behind.
pub(crate) fn add_single(
    parts: &mut Vec<Part>,
    part: Part,
    count: usize,
    most: u32,
) -> Result<(), NoMemory>
    requires few { length parts.old.items ≤ most }
    requires inside { count ≤ length parts.old.items }
    ensures more { OnOk result (length parts.old.items ≤ length parts.new.items) }
    ensures few { OnOk result (length parts.new.items ≤ most) }
    ensures apart { OnOk result ((other : Part) → (part ≡ other → ⊥) → IsApart count parts.old.items other → IsApart count parts.new.items other) }
    ensures good { OnOk result ((n m : ℕ) → IsPartOf n m part → IsApart count parts.old.items part → AreParts n m most parts.old.items → AreParts n m most parts.new.items) }
{
    if parts.len() >= most as usize {
        return Ok(());
    }
    match find_among(parts, count, part) {
        Some(_place) => Ok(()),
        None => push_part(parts, part),
    }
}

/// Puts a part behind the others, where it is none of them and these are fewer than `most`.
pub fn add(parts: &mut Vec<Part>, part: Part, most: u32) -> Result<(), NoMemory>
    requires few { length parts.old.items ≤ most }
    ensures more { OnOk result (length parts.old.items ≤ length parts.new.items) }
    ensures few { OnOk result (length parts.new.items ≤ most) }
    ensures good { OnOk result ((n m : ℕ) → IsPartOf n m part → AreParts n m most parts.old.items → AreParts n m most parts.new.items) }
{
    if parts.len() >= most as usize {
        return Ok(());
    }
    match find(parts, part) {
        Some(_place) => Ok(()),
        None => push_part(parts, part),
    }
}

// the caller's variable that a part is
fn caller_of(part: Part) -> Option<u32>
    ensures { result ≡ caller_of part }
{
    match part {
        Part::Caller(v) => Some(v),
        Part::Parameter(_v) => None,
    }
}

/// Where each variable comes from: from the caller, or from nowhere. `NoMemory`: memory ran out.
pub fn callers(alloc: Global, parts: &[Part]) -> Result<Vec<Option<u32>>, NoMemory>
    ensures long { IfOk result (λ picks. length picks.items ≡ length parts.now) }
    ensures each { IfOk result (λ picks. (k : ℕ) → k < length parts.now → slice_index_or picks.items k None ≡ caller_of (part_at parts.now k)) }
{
    let mut picks = vec![in alloc; None; parts.len()]?;
    for k in 0..parts.len() {
        picks[k] = caller_of(parts[k]);
    }
    Ok(picks)
}
