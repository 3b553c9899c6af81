// The parts of a projection: a copy that fits the new full ranges, ranges of picked variables, and states without a point.

ghost use Rattle.std.specs.Prelude.{◌≡◌, ℕ, ◌<◌, ◌≤◌, ◌+◌, length, slice_index_or, Some, None, IfOk, All};
ghost use Rattle.wm_domain.specs.Points.{Point, IsNarrow, range_at};
ghost use Rattle.wm_tied.specs.Pointed.{In, HasPoint};
ghost use Rattle.wm_tied.specs.Projecting.{IsDrawnRange};
ghost use Rattle.wm_projected.specs.Fitting.{IsFitted};

use std::alloc::Global;
use wm_interval::Interval;
use wm_ops::NoMemory;
use wm_tied::Tied;

/// A copy at whose points each picked variable lies in the full range for its place, through the group and then the singles.
/// `NoMemory`: memory ran out.
pub(crate) fn fitted(
    tied: &Tied,
    alloc: Global,
    group: &[Interval],
    singles: &[Interval],
    picks: &[Option<u32>],
) -> Result<Tied, NoMemory>
    requires long { length picks.now ≡ length group.now + length singles.now }
    requires named { (k v : ℕ) → slice_index_or picks.now k None ≡ Some v → v < length tied.now.group + length tied.now.spans.full }
    ensures fitted { IfOk result (λ c. IsFitted tied.now c group.now singles.now picks.now) }
{
    let mut copy = tied.copy(alloc)?;
    copy.cut_picked(group, picks, 0);
    copy.cut_picked(singles, picks, group.len());
    Ok(copy)
}

/// The least and the greatest number of each variable that is picked at a place from the first one; the full range where none
/// is. `NoMemory`: memory ran out.
pub(crate) fn drawn_ranges(
    tied: &Tied,
    alloc: Global,
    full: &[Interval],
    picks: &[Option<u32>],
    first: usize,
) -> Result<Vec<Interval>, NoMemory>
    requires some { HasPoint tied.now }
    requires narrow { All IsNarrow full.now }
    requires long { first + length full.now ≤ length picks.now }
    requires named { (k v : ℕ) → slice_index_or picks.now k None ≡ Some v → v < length tied.now.group + length tied.now.spans.full }
    ensures long { IfOk result (λ ranges. length ranges.items ≡ length full.now) }
    ensures narrow { IfOk result (λ ranges. All IsNarrow ranges.items) }
    ensures each { IfOk result (λ ranges. (k : ℕ) → k < length full.now → IsDrawnRange (In tied.now) (slice_index_or picks.now (first + k) None) (range_at full.now k) (range_at ranges.items k)) }
{
    let mut ranges = Vec::from_slice(alloc, full)?;
    for k in 0..full.len() {
        ranges[k] = tied.drawn_range(full[k], picks[first + k]);
    }
    Ok(ranges)
}

/// No point. `NoMemory`: memory ran out.
pub(crate) fn without_points(
    alloc: Global,
    group: &[Interval],
    singles: &[Interval],
    arrays: &[Interval],
) -> Result<Tied, NoMemory>
    requires few { length group.now ≤ 32 }
    requires group { All IsNarrow group.now }
    requires singles { All IsNarrow singles.now }
    ensures group { IfOk result (λ t. t.group ≡ group.now) }
    ensures full { IfOk result (λ t. t.spans.full ≡ singles.now) }
    ensures array_full { IfOk result (λ t. t.spans.array_full ≡ arrays.now) }
    ensures none { IfOk result (λ t. (p : Point) → In t p → ⊥) }
{
    let mut tied = Tied::new(alloc, group, singles, arrays)?;
    tied.clear();
    Ok(tied)
}
