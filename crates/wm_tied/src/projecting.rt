// The steps of a projection: cuts of picked variables, and their ranges.

ghost use Rattle.std.specs.Prelude.{◌≡◌, ℕ, ◌<◌, ◌≤◌, ◌+◌, length, slice_index_or, Some, None, IfOk};
ghost use Rattle.wm_domain.specs.Points.{IsNarrow};
ghost use Rattle.wm_spans.specs.Exact.{Exactly};
ghost use Rattle.wm_spans.specs.Spanned as spanned;
ghost use Rattle.wm_tied.specs.Leaving.{IsAlike, IsExactly};
ghost use Rattle.wm_tied.specs.Projecting.{IsPickedIn, ArePicked, IsDrawnRange, kept_pick, AreWithin};

use crate::tied::Tied;
use std::alloc::Global;
use wm_interval::Interval;
use wm_ops::NoMemory;
use wm_spans::Spans;

impl Tied {
    ghost use Rattle.wm_tied.specs.Pointed.{In, HasPoint};

    /// Cuts each variable that is picked at a place from the first one to the range for that place.
    pub fn cut_picked(&mut self, full: &[Interval], picks: &[Option<u32>], first: usize)
        requires long { first + length full.now ≤ length picks.now }
        requires named { (k v : ℕ) → slice_index_or picks.now k None ≡ Some v → v < length self.old.group + length self.old.spans.full }
        ensures alike { IsAlike self.old self.new }
        ensures points { IsExactly self.new (ArePicked (In self.old) full.now picks.now first (length full.now)) }
    {
        for k in 0..full.len() {
            self.cut_pick(full[k], picks[first + k]);
        }
    }

    /// Keeps the points at which the variable that is picked, if one is, lies in `r`.
    pub fn cut_pick(&mut self, r: Interval, pick: Option<u32>)
        requires named { (v : ℕ) → pick ≡ Some v → v < length self.old.group + length self.old.spans.full }
        ensures alike { IsAlike self.old self.new }
        ensures points { IsExactly self.new (IsPickedIn (In self.old) r pick) }
    {
        match pick {
            None => {},
            Some(v) => self.cut(v as usize, r),
        }
    }

    /// The least and the greatest number of the variable that is picked, where there is a point; the full range where none is.
    pub fn drawn_range(&self, full: Interval, pick: Option<u32>) -> Interval
        requires some { HasPoint self.now }
        requires narrow { IsNarrow full }
        requires named { (v : ℕ) → pick ≡ Some v → v < length self.now.group + length self.now.spans.full }
        ensures narrow { IsNarrow result }
        ensures drawn { IsDrawnRange (In self.now) pick full result }
    {
        match pick {
            None => full,
            Some(v) => self.range(v as usize),
        }
    }
}

/// The first picks, where they name one of the first `limit` variables. `NoMemory`: memory ran out.
pub fn kept_picks(
    alloc: Global,
    picks: &[Option<u32>],
    count: usize,
    limit: usize,
) -> Result<Vec<Option<usize>>, NoMemory>
    requires long { count ≤ length picks.now }
    ensures long { IfOk result (λ keep. length keep.items ≡ count) }
    ensures each { IfOk result (λ keep. (k : ℕ) → k < count → slice_index_or keep.items k None ≡ kept_pick limit (slice_index_or picks.now k None)) }
{
    let mut keep = vec![in alloc; None; count]?;
    for k in 0..count {
        keep[k] = kept_one(picks[k], limit);
    }
    Ok(keep)
}

fn kept_one(pick: Option<u32>, limit: usize) -> Option<usize>
    ensures { result ≡ kept_pick limit pick }
{
    match pick {
        None => None,
        Some(v) => {
            if (v as usize) < limit {
                return Some(v as usize);
            }
            None
        },
    }
}

/// Cuts each variable to its range.
pub fn cut_all(spans: &mut Spans, ranges: &[Interval])
    requires long { length ranges.now ≡ length spans.old.full }
    ensures full { spans.new.full ≡ spans.old.full }
    ensures array_full { spans.new.array_full ≡ spans.old.array_full }
    ensures points { Exactly spans.new (AreWithin (spanned.In spans.old) ranges.now (length ranges.now)) }
{
    for k in 0..ranges.len() {
        spans.cut(k, ranges[k]);
    }
}
