// The shape of the variables between, and the way back to the callee.
ghost use Rattle.std.specs.Prelude.{◌≡◌, ◌<◌, ◌≤◌, ◌^◌, ℕ, length, slice_index_or, None, IfOk, MatchOption};
ghost use Rattle.wm_domain.specs.Points.{range_at};
ghost use Rattle.wm_domain.specs.States.{IsShape};
ghost use Rattle.wm_middle.specs.Parting.{AreWords, IsMiddle, IsBack, part_at};
ghost use Rattle.wm_middle.specs.declared.parts.Part.TheVariants.{Parameter};

use crate::middle::Middle;
use crate::parts::{Part, find_among, find_next};
use std::alloc::Global;
use wm_domain::Shape;
use wm_interval::Interval;
use wm_ops::{List, NoMemory};

// the numbers of 32 bits
fn words() -> Interval
    ensures { AreWords result }
{
    Interval::new(-2147483648, 2147483647)
}

// these so many times
fn same_words(alloc: Global, count: usize) -> Result<List<Interval>, NoMemory>
    ensures long { IfOk result (λ list. length list ≡ count) }
    ensures each { IfOk result (λ list. (k : ℕ) → k < count → AreWords (range_at list k)) }
{
    let mut list = List::new(alloc);
    for k in 0..count {
        list.push(words())?;
    }
    Ok(list)
}

// the same ranges once more
fn same_ranges(alloc: Global, ranges: &[Interval]) -> Result<List<Interval>, NoMemory>
    ensures { IfOk result (λ list. list ≡ ranges.now) }
{
    let mut list = List::new(alloc);
    for r in ranges {
        list.push(*r)?;
    }
    Ok(list)
}

/// The shape of the variables, which have 32 bits, with the arrays of the callee. `NoMemory`: memory ran out.
pub fn shape_of(alloc: Global, target: &Shape, middle: &Middle) -> Result<Shape, NoMemory>
    requires shape { IsShape target.now }
    requires few { middle.now.group ≤ 32 }
    requires inside { middle.now.group ≤ length middle.now.parts.items }
    ensures middle { IfOk result (λ s. IsMiddle target.now (length middle.now.parts.items) s) }
{
    let group = same_words(alloc, middle.group)?;
    let singles = same_words(alloc, middle.parts.len() - middle.group)?;
    let arrays = same_ranges(alloc, target.arrays.items())?;
    Ok(Shape {
        group,
        singles,
        arrays,
    })
}

// the place of the caller's variable that is picked, which is `next` as a rule
fn picked_place(parts: &[Part], v: u32, pick: Option<u32>, next: usize) -> Option<u32>
    requires few { length parts.now < 2 ^ 32 }
    ensures { IsBack parts.now v pick result }
{
    match pick {
        None => None,
        Some(w) => find_next(parts, w, next),
    }
}

// the place of a parameter; parameters stand in the group, among the first 32, and their numbers lie below `most`
fn parameter_place(parts: &[Part], v: u32, most: u32) -> Option<u32>
    requires few { length parts.now < 2 ^ 32 }
    ensures { MatchOption result (Unit {0}) (λ k. (k < length parts.now) × (part_at parts.now k ≡ Parameter v)) }
{
    if v >= most {
        return None;
    }
    find_among(parts, parts.len().min(32), Part::Parameter(v))
}

// the place from which a variable of the callee comes
fn back_of(parts: &[Part], v: u32, pick: Option<u32>, next: usize, most: u32) -> Option<u32>
    requires few { length parts.now < 2 ^ 32 }
    ensures { IsBack parts.now v pick result }
{
    match parameter_place(parts, v, most) {
        Some(place) => Some(place),
        None => picked_place(parts, v, pick, next),
    }
}

// a number above that of a part, where it is a parameter
fn above(part: Part, most: u32) -> u32 {
    match part {
        Part::Caller(_v) => most,
        Part::Parameter(v) => most.max(v.saturating_add(1)),
    }
}

// a number above those of all parameters among the first 32
fn above_all(parts: &[Part]) -> u32 {
    let mut most = 0;
    for k in 0..parts.len().min(32) {
        most = above(parts[k], most);
    }
    most
}

// the place behind all that were found
fn behind(place: Option<u32>, next: usize) -> usize {
    match place {
        None => next,
        Some(k) => next.max(k as usize + 1),
    }
}

/// The places from which the variables of the callee come. `NoMemory`: memory ran out.
pub fn backs(
    alloc: Global,
    parts: &[Part],
    picks: &[Option<u32>],
) -> Result<Vec<Option<u32>>, NoMemory>
    requires few { length parts.now < 2 ^ 32 }
    requires long { length picks.now < 2 ^ 32 }
    ensures long { IfOk result (λ places. length places.items ≡ length picks.now) }
    ensures each { IfOk result (λ places. (v : ℕ) → v < length picks.now → IsBack parts.now v (slice_index_or picks.now v None) (slice_index_or places.items v None)) }
{
    let mut places = vec![in alloc; None; picks.len()]?;
    let most = above_all(parts);
    let mut next = 0;
    for v in 0..picks.len() {
        let place = back_of(parts, v as u32, picks[v], next, most);
        places[v] = place;
        next = behind(place, next);
    }
    Ok(places)
}
