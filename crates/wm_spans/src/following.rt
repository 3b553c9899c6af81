// Ranges and summaries at the next node: what is paired by place with older ones is copied.

ghost use Rattle.std.specs.Prelude.{◌≡◌, ℕ, ◌<◌, ◌++◌, length, take, drop, replicate, IfOk, OnOk, All};
ghost use Rattle.wm_arrays.specs.declared.summary.Summary.TheVariants.{Empty};
ghost use Rattle.wm_domain.specs.Points.{IsNarrow, range_at};
ghost use Rattle.wm_domain.specs.Changes.{Projected};
ghost use Rattle.wm_domain.specs.Places.{placed, places_of, ArePaired};
ghost use Rattle.wm_spans.specs.Spanned.{cell_at};
ghost use Rattle.wm_spans.specs.Exact.{IsDrawnAt};
ghost use Rattle.wm_spans.specs.Over.{over, parted, shape_of};
ghost use Rattle.std.specs.Prelude.{slice_index_or, None};

use crate::spans::Spans;
use std::alloc::Global;
use wm_arrays::Summary;
use wm_interval::Interval;
use wm_ops::NoMemory;

impl Spans {
    ghost use Rattle.wm_spans.specs.Spanned.{In, Kept};
    ghost use Rattle.wm_spans.specs.Exact.{Exactly};

    /// The same of other full ranges: the first `count` variables are paired each by place with those of the first list, the
    /// others with those of the second, and arrays with arrays; what is paired has one full range. A variable that is new has
    /// any number of its full range, and an array that is new has no set cell. `NoMemory`: memory ran out.
    pub fn follow(
        &self,
        alloc: Global,
        count: usize,
        first: &[Interval],
        second: &[Interval],
        arrays: &[Interval],
    ) -> Result<Spans, NoMemory>
        requires first { All IsNarrow first.now }
        requires second { All IsNarrow second.now }
        requires paired { ArePaired (parted count self.now) (shape_of first.now second.now arrays.now) }
        ensures full { IfOk result (λ s. s.full ≡ first.now ++ second.now) }
        ensures array_full { IfOk result (λ s. s.array_full ≡ arrays.now) }
        ensures ranges { IfOk result (λ s. s.ranges ≡ over (take count self.now.ranges) first.now ++ over (drop count self.now.ranges) second.now) }
        ensures cells { IfOk result (λ s. (a : ℕ) → a < length arrays.now → IsDrawnAt (cell_at self.now.cells) (slice_index_or (placed 0 (length self.now.array_full) (length arrays.now)) a None) (range_at arrays.now a) (cell_at s.cells a)) }
        ensures empty { IfOk result (λ s. s.empty ≡ self.now.empty) }
        ensures kept { IfOk result (λ s. Kept s) }
        ensures here { Kept self.now }
        ensures points { IfOk result (λ s. Exactly s (Projected (In self.now) (places_of (length (take count self.now.full)) (length (drop count self.now.full)) (length first.now) (length second.now)) (placed 0 (length self.now.array_full) (length arrays.now)))) }
    {
        let ranges = ranges_over(alloc, self.ranges(), count, first, second)?;
        let cells = cells_over(alloc, self.cells(), arrays.len())?;
        let empty = self.is_empty();
        let spans = Spans::of_lists(alloc, first, second, arrays, ranges, cells, empty)?;
        Ok(spans)
    }
}

// appends the second list, with what the first has at its places
fn push_over<T: Copy>(list: &mut Vec<T>, old: &[T], new: &[T]) -> Result<(), NoMemory>
    ensures items { OnOk result (list.new.items ≡ list.old.items ++ over old.now new.now) }
{
    if old.len() < new.len() {
        push_all(list, old)?;
        push_all(list, &new[old.len()..])?;
        return Ok(());
    }
    push_all(list, &old[..new.len()])?;
    Ok(())
}

fn push_all<T: Copy>(list: &mut Vec<T>, items: &[T]) -> Result<(), NoMemory>
    ensures items { OnOk result (list.new.items ≡ list.old.items ++ items.now) }
{
    list.extend_from_slice(items)?;
    Ok(())
}

// the ranges of the first list, with the first `count` older ones at their places, and those of the second, with the others
fn ranges_over(
    alloc: Global,
    old: &[Interval],
    count: usize,
    first: &[Interval],
    second: &[Interval],
) -> Result<Vec<Interval>, NoMemory>
    ensures items { IfOk result (λ ranges. ranges.items ≡ over (take count old.now) first.now ++ over (drop count old.now) second.now) }
{
    let count = count.min(old.len());
    let mut ranges = Vec::with_capacity(alloc, first.len().saturating_add(second.len()))?;
    push_over(&mut ranges, &old[..count], first)?;
    push_over(&mut ranges, &old[count..], second)?;
    Ok(ranges)
}

// as many summaries, none of which has a set cell but those of older arrays at their places
fn cells_over(alloc: Global, old: &[Summary], count: usize) -> Result<Vec<Summary>, NoMemory>
    ensures items { IfOk result (λ cells. cells.items ≡ over old.now (replicate count Empty)) }
{
    let blank = vec![in alloc; Summary::Empty; count]?;
    let mut cells = Vec::with_capacity(alloc, count)?;
    push_over(&mut cells, old, blank.as_slice())?;
    Ok(cells)
}
