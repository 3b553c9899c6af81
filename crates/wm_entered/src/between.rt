// The way to the variables between, and from them to the callee.
ghost use Rattle.std.specs.Prelude.{◌≡◌, ◌<◌, ◌^◌, ℕ, Some, None, length, slice_index_or, IfOk};
ghost use Rattle.wm_domain.specs.Points.{Point};
ghost use Rattle.wm_domain.specs.States.{count_of, array_count, IsShape, InShape};
ghost use Rattle.wm_domain.specs.Changes.{ArePicks, IsPicked, IsPickedCell};
ghost use Rattle.wm_entered.specs.Crossing.{AreTaken, middle_point};

use std::alloc::Global;
use wm_domain::{Domain, Shape};
use wm_middle::{Part, backs, callers};
use wm_ops::NoMemory;

/// The variables between have the caller's numbers, and parameters any. `NoMemory`: memory ran out.
pub fn toward<D: Domain>(
    alloc: Global,
    shape: &Shape,
    at: &D,
    parts: &[Part],
    arrays: &[Option<u32>],
) -> Result<D, NoMemory>
    requires shaped { IsShape shape.now }
    requires long { count_of shape.now ≡ length parts.now }
    requires arrays_long { length arrays.now ≡ array_count shape.now }
    requires parts { AreTaken (count_of (D.shape_of at.now)) parts.now }
    requires array_picks { ArePicks (array_count (D.shape_of at.now)) arrays.now }
    ensures shape { IfOk result (λ s. D.shape_of s ≡ shape.now) }
    ensures crossed { IfOk result (λ s. (was p : Point) → D.holds at.now was → InShape shape.now (middle_point parts.now was p) → ((a : ℕ) → a < length arrays.now → IsPickedCell (slice_index_or arrays.now a None) was (p.cells a)) → D.holds s (middle_point parts.now was p)) }
{
    let picks = callers(alloc, parts)?;
    let state = at.project(alloc, shape, &picks, arrays)?;
    Ok(state)
}

// each of so many places
fn places(alloc: Global, count: usize) -> Result<Vec<Option<u32>>, NoMemory>
    requires few { count < 2 ^ 32 }
    ensures long { IfOk result (λ picks. length picks.items ≡ count) }
    ensures each { IfOk result (λ picks. (a : ℕ) → a < count → slice_index_or picks.items a None ≡ Some a) }
{
    let mut picks = vec![in alloc; None; count]?;
    for a in 0..count {
        picks[a] = Some(a as u32);
    }
    Ok(picks)
}

/// The callee's variables have the numbers of those between from which they come. `NoMemory`: memory ran out.
pub fn back<D: Domain>(
    alloc: Global,
    target: &Shape,
    state: &D,
    parts: &[Part],
    picks: &[Option<u32>],
) -> Result<D, NoMemory>
    requires shaped { IsShape target.now }
    requires few { length parts.now < 2 ^ 32 }
    requires few_variables { count_of target.now < 2 ^ 32 }
    requires few_arrays { array_count target.now < 2 ^ 32 }
    requires long { length picks.now ≡ count_of target.now }
    requires between { count_of (D.shape_of state.now) ≡ length parts.now }
    requires arrays { (D.shape_of state.now).arrays ≡ target.now.arrays }
    requires picks { (k l v : ℕ) → slice_index_or picks.now k None ≡ Some v → slice_index_or picks.now l None ≡ Some v → k ≡ l }
    ensures shape { IfOk result (λ s. D.shape_of s ≡ target.now) }
    ensures crossed { IfOk result (λ s. (was p : Point) → D.holds state.now (middle_point parts.now was p) → InShape target.now p → ((v : ℕ) → v < length picks.now → IsPicked (slice_index_or picks.now v None) was (p.values v)) → D.holds s p) }
{
    let from = backs(alloc, parts, picks)?;
    let arrays = places(alloc, target.arrays.items().len())?;
    let behind = state.project(alloc, target, &from, &arrays)?;
    Ok(behind)
}
