// Whether the points of a state fit other full ranges as they are.

ghost use Rattle.std.specs.Prelude.{◌≡◌, ℕ, ◌<◌, ◌≤◌, ◌+◌, length, slice_index_or, Some, None, IfOk, IfSome, All};
ghost use Rattle.wm_domain.specs.Points.{Point, IsNarrow, range_at};
ghost use Rattle.wm_tied.specs.Pointed.{In, HasPoint};
ghost use Rattle.wm_tied.specs.Projecting.{ArePicked, IsDrawnRange};

use std::alloc::Global;
use wm_interval::Interval;
use wm_ops::NoMemory;
use wm_tied::Tied;

/// The least and the greatest number of each variable that is picked at a place from the first one; the full range where none
/// is. None where a picked variable may lie outside the full range for its place. `NoMemory`: memory ran out.
pub(crate) fn fitting_ranges(
    tied: &Tied,
    alloc: Global,
    full: &[Interval],
    picks: &[Option<u32>],
    first: usize,
) -> Result<Option<Vec<Interval>>, NoMemory>
    requires some { HasPoint tied.now }
    requires narrow { All IsNarrow full.now }
    requires long { first + length full.now ≤ length picks.now }
    requires named { (k v : ℕ) → slice_index_or picks.now k None ≡ Some v → v < length tied.now.group + length tied.now.spans.full }
    ensures long { IfOk result (λ found. IfSome found (λ ranges. length ranges.items ≡ length full.now)) }
    ensures narrow { IfOk result (λ found. IfSome found (λ ranges. All IsNarrow ranges.items)) }
    ensures each { IfOk result (λ found. IfSome found (λ ranges. (k : ℕ) → k < length full.now → IsDrawnRange (In tied.now) (slice_index_or picks.now (first + k) None) (range_at full.now k) (range_at ranges.items k))) }
    ensures lies { IfOk result (λ found. IfSome found (λ ranges. (p : Point) → In tied.now p → ArePicked (In tied.now) full.now picks.now first (length full.now) p)) }
{
    let mut ranges = Vec::from_slice(alloc, full)?;
    for k in 0..full.len() {
        let range = tied.drawn_range(full[k], picks[first + k]);
        if !range.within(full[k]) {
            return Ok(None);
        }
        ranges[k] = range;
    }
    Ok(Some(ranges))
}
