// The projection.

ghost use Rattle.std.specs.Prelude.{◌≡◌, ℕ, ◌<◌, ◌≤◌, ◌+◌, length, slice_index_or, Some, None, IfOk, All};
ghost use Rattle.wm_domain.specs.Points.{Point, IsNarrow, range_at};
ghost use Rattle.wm_domain.specs.Changes.{Projected, ArePicks};
ghost use Rattle.wm_tied.specs.Pointed.{In, HasPoint};
ghost use Rattle.wm_tied.specs.Leaving.{IsLeft};
ghost use Rattle.wm_tied.specs.Projecting.{ArePicked, IsDrawnRange};

use crate::drawn::{drawn_ranges, fitted, without_points};
use crate::lying::fitting_ranges;
use crate::whole::is_identity;
use std::alloc::Global;
use wm_interval::Interval;
use wm_ops::NoMemory;
use wm_tied::{Tied, kept_picks};

/// The state of other full ranges whose variable k, through the group and then the singles, is the variable `picks[k]`, or has
/// any number of its full range where that is None, and whose array k is the array `array_picks[k]`, or has no set cell where
/// that is None. No variable and no array is picked twice. `NoMemory`: memory ran out.
pub fn projected(
    tied: &Tied,
    alloc: Global,
    group: &[Interval],
    singles: &[Interval],
    arrays: &[Interval],
    picks: &[Option<u32>],
    array_picks: &[Option<u32>],
) -> Result<Tied, NoMemory>
    requires few { length group.now ≤ 32 }
    requires group { All IsNarrow group.now }
    requires singles { All IsNarrow singles.now }
    requires long { length picks.now ≡ length group.now + length singles.now }
    requires arrays_long { length array_picks.now ≡ length arrays.now }
    requires picks { ArePicks (length tied.now.group + length tied.now.spans.full) picks.now }
    requires array_picks { ArePicks (length tied.now.spans.array_full) array_picks.now }
    ensures group { IfOk result (λ t. t.group ≡ group.now) }
    ensures full { IfOk result (λ t. t.spans.full ≡ singles.now) }
    ensures array_full { IfOk result (λ t. t.spans.array_full ≡ arrays.now) }
    ensures left { IfOk result (λ t. IsLeft t (Projected (In tied.now) picks.now array_picks.now)) }
{
    if is_identity(tied, group, singles, arrays, picks, array_picks) {
        let same = tied.copy(alloc)?;
        return Ok(same);
    }
    let moved = moved(tied, alloc, group, singles, arrays, picks, array_picks)?;
    Ok(moved)
}

// the same where something leaves its place
fn moved(
    tied: &Tied,
    alloc: Global,
    group: &[Interval],
    singles: &[Interval],
    arrays: &[Interval],
    picks: &[Option<u32>],
    array_picks: &[Option<u32>],
) -> Result<Tied, NoMemory>
    requires few { length group.now ≤ 32 }
    requires group { All IsNarrow group.now }
    requires singles { All IsNarrow singles.now }
    requires long { length picks.now ≡ length group.now + length singles.now }
    requires arrays_long { length array_picks.now ≡ length arrays.now }
    requires picks { ArePicks (length tied.now.group + length tied.now.spans.full) picks.now }
    requires array_picks { ArePicks (length tied.now.spans.array_full) array_picks.now }
    ensures group { IfOk result (λ t. t.group ≡ group.now) }
    ensures full { IfOk result (λ t. t.spans.full ≡ singles.now) }
    ensures array_full { IfOk result (λ t. t.spans.array_full ≡ arrays.now) }
    ensures left { IfOk result (λ t. IsLeft t (Projected (In tied.now) picks.now array_picks.now)) }
{
    if tied.is_empty() {
        let none = without_points(alloc, group, singles, arrays)?;
        return Ok(none);
    }
    let Some(ranges) = fitting_ranges(tied, alloc, group, picks, 0)? else {
        return refitted(tied, alloc, group, singles, arrays, picks, array_picks);
    };
    let Some(single_ranges) = fitting_ranges(tied, alloc, singles, picks, group.len())? else {
        return refitted(tied, alloc, group, singles, arrays, picks, array_picks);
    };
    let lent = gathered(
        tied,
        alloc,
        group,
        singles,
        arrays,
        picks,
        array_picks,
        ranges,
        single_ranges,
    )?;
    Ok(lent)
}

// the same where picked variables may lie outside the full ranges for their places: they are cut in a copy
fn refitted(
    tied: &Tied,
    alloc: Global,
    group: &[Interval],
    singles: &[Interval],
    arrays: &[Interval],
    picks: &[Option<u32>],
    array_picks: &[Option<u32>],
) -> Result<Tied, NoMemory>
    requires few { length group.now ≤ 32 }
    requires group { All IsNarrow group.now }
    requires singles { All IsNarrow singles.now }
    requires long { length picks.now ≡ length group.now + length singles.now }
    requires arrays_long { length array_picks.now ≡ length arrays.now }
    requires picks { ArePicks (length tied.now.group + length tied.now.spans.full) picks.now }
    requires array_picks { ArePicks (length tied.now.spans.array_full) array_picks.now }
    ensures group { IfOk result (λ t. t.group ≡ group.now) }
    ensures full { IfOk result (λ t. t.spans.full ≡ singles.now) }
    ensures array_full { IfOk result (λ t. t.spans.array_full ≡ arrays.now) }
    ensures left { IfOk result (λ t. IsLeft t (Projected (In tied.now) picks.now array_picks.now)) }
{
    let fit = fitted(tied, alloc, group, singles, picks)?;
    if fit.is_empty() {
        let none = without_points(alloc, group, singles, arrays)?;
        return Ok(none);
    }
    let ranges = drawn_ranges(&fit, alloc, group, picks, 0)?;
    let single_ranges = drawn_ranges(&fit, alloc, singles, picks, group.len())?;
    let drawn = gathered(
        &fit,
        alloc,
        group,
        singles,
        arrays,
        picks,
        array_picks,
        ranges,
        single_ranges,
    )?;
    Ok(drawn)
}

// the same of a state with a point, whose picked variables lie in the full ranges for their places, with their ranges
fn gathered(
    tied: &Tied,
    alloc: Global,
    group: &[Interval],
    singles: &[Interval],
    arrays: &[Interval],
    picks: &[Option<u32>],
    array_picks: &[Option<u32>],
    ranges: Vec<Interval>,
    single_ranges: Vec<Interval>,
) -> Result<Tied, NoMemory>
    requires few { length group.now ≤ 32 }
    requires group { All IsNarrow group.now }
    requires singles { All IsNarrow singles.now }
    requires long { length picks.now ≡ length group.now + length singles.now }
    requires arrays_long { length array_picks.now ≡ length arrays.now }
    requires picks { ArePicks (length tied.now.group + length tied.now.spans.full) picks.now }
    requires array_picks { ArePicks (length tied.now.spans.array_full) array_picks.now }
    requires some { HasPoint tied.now }
    requires group_lies { (p : Point) → In tied.now p → ArePicked (In tied.now) group.now picks.now 0 (length group.now) p }
    requires singles_lie { (p : Point) → In tied.now p → ArePicked (In tied.now) singles.now picks.now (length group.now) (length singles.now) p }
    requires ranges_narrow { All IsNarrow ranges.items }
    requires ranges_long { length ranges.items ≡ length group.now }
    requires ranges_each { (k : ℕ) → k < length group.now → IsDrawnRange (In tied.now) (slice_index_or picks.now (0 + k) None) (range_at group.now k) (range_at ranges.items k) }
    requires singles_long { length single_ranges.items ≡ length singles.now }
    requires singles_each { (k : ℕ) → k < length singles.now → IsDrawnRange (In tied.now) (slice_index_or picks.now (length group.now + k) None) (range_at singles.now k) (range_at single_ranges.items k) }
    ensures group { IfOk result (λ t. t.group ≡ group.now) }
    ensures full { IfOk result (λ t. t.spans.full ≡ singles.now) }
    ensures array_full { IfOk result (λ t. t.spans.array_full ≡ arrays.now) }
    ensures left { IfOk result (λ t. IsLeft t (Projected (In tied.now) picks.now array_picks.now)) }
{
    let keep = kept_picks(alloc, picks, group.len(), tied.count())?;
    let ties = tied
        .ties()
        .project(alloc, keep.as_slice(), ranges.as_slice())?;
    let spans = tied
        .spans()
        .with_ranges(alloc, singles, single_ranges, arrays, array_picks)?;
    let drawn = Tied::of_parts(alloc, group, ties, spans)?;
    Ok(drawn)
}
