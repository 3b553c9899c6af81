// The state at the next node: everything is paired by place.

ghost use Rattle.std.specs.Prelude.{◌≡◌, [], ℕ, ◌<◌, ◌≤◌, length, slice_index_or, Some, None, IfOk, All};
ghost use Rattle.wm_domain.specs.Points.{Point, IsNarrow};
ghost use Rattle.wm_domain.specs.Changes.{Projected};
ghost use Rattle.wm_domain.specs.Places.{placed, places_of, ArePaired};
ghost use Rattle.wm_spans.specs.Over as laying;
ghost use Rattle.wm_tied.specs.Pointed.{In, HasPoint, shape_of};
ghost use Rattle.wm_tied.specs.Leaving.{IsLeft};
ghost use Rattle.wm_tied.specs.Projecting.{kept_pick};

use crate::drawn::without_points;
use std::alloc::Global;
use wm_interval::Interval;
use wm_ops::NoMemory;
use wm_tied::Tied;

/// The state of other full ranges: group, singles and arrays are paired each by place with those of the older state, and what
/// is paired has one full range. What only the older one has is dropped. A variable that is new has any number of its full
/// range, and an array that is new has no set cell. `NoMemory`: memory ran out.
pub fn followed(
    tied: &Tied,
    alloc: Global,
    group: &[Interval],
    singles: &[Interval],
    arrays: &[Interval],
) -> Result<Tied, NoMemory>
    requires few { length group.now ≤ 32 }
    requires group { All IsNarrow group.now }
    requires singles { All IsNarrow singles.now }
    requires paired { ArePaired (shape_of tied.now) (laying.shape_of group.now singles.now arrays.now) }
    ensures group { IfOk result (λ t. t.group ≡ group.now) }
    ensures full { IfOk result (λ t. t.spans.full ≡ singles.now) }
    ensures array_full { IfOk result (λ t. t.spans.array_full ≡ arrays.now) }
    ensures left { IfOk result (λ t. IsLeft t (Projected (In tied.now) (places_of (length tied.now.group) (length tied.now.spans.full) (length group.now) (length singles.now)) (placed 0 (length tied.now.spans.array_full) (length arrays.now)))) }
{
    if tied.is_empty() {
        let none = without_points(alloc, group, singles, arrays)?;
        return Ok(none);
    }
    let next = next_of(tied, alloc, group, singles, arrays)?;
    Ok(next)
}

// the same of a state with a point
fn next_of(
    tied: &Tied,
    alloc: Global,
    group: &[Interval],
    singles: &[Interval],
    arrays: &[Interval],
) -> Result<Tied, NoMemory>
    requires few { length group.now ≤ 32 }
    requires group { All IsNarrow group.now }
    requires singles { All IsNarrow singles.now }
    requires paired { ArePaired (shape_of tied.now) (laying.shape_of group.now singles.now arrays.now) }
    requires some { HasPoint tied.now }
    ensures group { IfOk result (λ t. t.group ≡ group.now) }
    ensures full { IfOk result (λ t. t.spans.full ≡ singles.now) }
    ensures array_full { IfOk result (λ t. t.spans.array_full ≡ arrays.now) }
    ensures left { IfOk result (λ t. IsLeft t (Projected (In tied.now) (places_of (length tied.now.group) (length tied.now.spans.full) (length group.now) (length singles.now)) (placed 0 (length tied.now.spans.array_full) (length arrays.now)))) }
{
    let keep = own_places(alloc, tied.count(), group.len())?;
    let ties = tied.ties().project(alloc, keep.as_slice(), group)?;
    let spans = tied.spans().follow(alloc, 0, &[], singles, arrays)?;
    let next = Tied::of_parts(alloc, group, ties, spans)?;
    Ok(next)
}

// `n` places, of which the first `count` pick themselves
fn own_places(alloc: Global, count: usize, n: usize) -> Result<Vec<Option<usize>>, NoMemory>
    ensures long { IfOk result (λ keep. length keep.items ≡ n) }
    ensures each { IfOk result (λ keep. (k : ℕ) → k < n → slice_index_or keep.items k None ≡ kept_pick count (Some k)) }
{
    let mut keep = vec![in alloc; None; n]?;
    for k in 0..n {
        keep[k] = own_place(k, count);
    }
    Ok(keep)
}

fn own_place(k: usize, count: usize) -> Option<usize>
    ensures { result ≡ kept_pick count (Some k) }
{
    if k < count {
        return Some(k);
    }
    None
}
