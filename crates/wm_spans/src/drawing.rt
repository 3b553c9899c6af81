// Ranges and summaries that begin anew, with some arrays of older ones.

ghost use Rattle.std.specs.Prelude.{◌≡◌, ℕ, ◌<◌, ◌++◌, length, slice_index_or, Option, Some, None, IfOk, All, false};
ghost use Rattle.wm_domain.specs.Points.{IsNarrow, range_at};
ghost use Rattle.wm_domain.specs.Changes.{Projected, ArePicks};
ghost use Rattle.wm_spans.specs.Spanned.{cell_at, Lies};
ghost use Rattle.wm_spans.specs.Exact.{IsDrawnAt};

use crate::spans::{Spans, fitted};
use std::alloc::Global;
use wm_arrays::Summary;
use wm_interval::Interval;
use wm_ops::NoMemory;

impl Spans {
    ghost use Rattle.wm_spans.specs.Spanned.{In, Kept};
    ghost use Rattle.wm_spans.specs.Exact.{Exactly, IsBlank, AreDrawn, AreCut, IsCutAt};

    /// Each variable has any number of its full range, through the first and then the second list, and no cell is set.
    /// `NoMemory`: memory ran out.
    pub fn new(
        alloc: Global,
        first: &[Interval],
        second: &[Interval],
        arrays: &[Interval],
    ) -> Result<Spans, NoMemory>
        requires first { All IsNarrow first.now }
        requires second { All IsNarrow second.now }
        ensures full { IfOk result (λ s. s.full ≡ first.now ++ second.now) }
        ensures array_full { IfOk result (λ s. s.array_full ≡ arrays.now) }
        ensures points { IfOk result (λ s. Exactly s (IsBlank (length arrays.now))) }
    {
        let cells = vec![in alloc; Summary::Empty; arrays.len()]?;
        let spans = Spans::begin(alloc, first, second, arrays, cells)?;
        Ok(spans)
    }

    /// The same, where array k has what the set cells of array `picks[k]` hold that lies in its full range. `NoMemory`:
    /// memory ran out.
    pub fn with_arrays(
        &self,
        alloc: Global,
        first: &[Interval],
        second: &[Interval],
        arrays: &[Interval],
        picks: &[Option<u32>],
    ) -> Result<Spans, NoMemory>
        requires first { All IsNarrow first.now }
        requires second { All IsNarrow second.now }
        requires long { length picks.now ≡ length arrays.now }
        requires named { (k a : ℕ) → slice_index_or picks.now k None ≡ Some a → a < length self.now.array_full }
        ensures full { IfOk result (λ s. s.full ≡ first.now ++ second.now) }
        ensures array_full { IfOk result (λ s. s.array_full ≡ arrays.now) }
        ensures points { IfOk result (λ s. Exactly s (AreDrawn (cell_at self.now.cells) picks.now (length arrays.now))) }
    {
        let cells = self.drawn(alloc, arrays, picks)?;
        let spans = Spans::begin(alloc, first, second, arrays, cells)?;
        Ok(spans)
    }

    /// Where variable k has any number of `ranges[k]`, which lies in its full range, and array k has what the set cells of array
    /// `picks[k]` hold that lies in its full range, or no set cell where that is None. `NoMemory`: memory ran out.
    pub fn with_ranges(
        &self,
        alloc: Global,
        full: &[Interval],
        ranges: Vec<Interval>,
        arrays: &[Interval],
        picks: &[Option<u32>],
    ) -> Result<Spans, NoMemory>
        requires narrow { All IsNarrow full.now }
        requires ranges_long { length ranges.items ≡ length full.now }
        requires lies { (v : ℕ) → v < length full.now → Lies (range_at full.now v) (range_at ranges.items v) }
        requires long { length picks.now ≡ length arrays.now }
        requires named { (k a : ℕ) → slice_index_or picks.now k None ≡ Some a → a < length self.now.array_full }
        ensures full { IfOk result (λ s. s.full ≡ full.now) }
        ensures array_full { IfOk result (λ s. s.array_full ≡ arrays.now) }
        ensures ranges { IfOk result (λ s. s.ranges ≡ ranges.items) }
        ensures some { IfOk result (λ s. s.empty ≡ false) }
        ensures cells { IfOk result (λ s. (a : ℕ) → a < length arrays.now → IsDrawnAt (cell_at self.now.cells) (slice_index_or picks.now a None) (range_at arrays.now a) (cell_at s.cells a)) }
        ensures kept { IfOk result (λ s. Kept s) }
    {
        let cells = self.drawn(alloc, arrays, picks)?;
        let spans = Spans::laid(alloc, full, ranges, arrays, cells)?;
        Ok(spans)
    }

    // the summaries of picked arrays
    fn drawn(
        &self,
        alloc: Global,
        arrays: &[Interval],
        picks: &[Option<u32>],
    ) -> Result<Vec<Summary>, NoMemory>
        requires long { length picks.now ≡ length arrays.now }
        requires named { (k a : ℕ) → slice_index_or picks.now k None ≡ Some a → a < length self.now.array_full }
        ensures long { IfOk result (λ cells. length cells.items ≡ length arrays.now) }
        ensures each { IfOk result (λ cells. (k : ℕ) → k < length arrays.now → IsDrawnAt (cell_at self.now.cells) (slice_index_or picks.now k None) (range_at arrays.now k) (cell_at cells.items k)) }
    {
        let mut cells = vec![in alloc; Summary::Empty; arrays.len()]?;
        for k in 0..arrays.len() {
            cells[k] = self.drawn_one(arrays[k], picks[k]);
        }
        Ok(cells)
    }

    // the summary of the picked array, within the full range
    fn drawn_one(&self, full: Interval, pick: Option<u32>) -> Summary
        requires { (a : ℕ) → pick ≡ Some a → a < length self.now.array_full }
        ensures { IsDrawnAt (cell_at self.now.cells) pick full result }
    {
        match pick {
            None => Summary::Empty,
            Some(a) => fitted(full, self.array(a as usize)),
        }
    }

    /// The same of other full ranges, where variable k is the variable `picks[k]`, or has any number of its full range where
    /// that is None, and array k is the array `array_picks[k]`, or has no set cell where that is None. No variable and no
    /// array is picked twice. `NoMemory`: memory ran out.
    pub fn project(
        &self,
        alloc: Global,
        first: &[Interval],
        second: &[Interval],
        arrays: &[Interval],
        picks: &[Option<u32>],
        array_picks: &[Option<u32>],
    ) -> Result<Spans, NoMemory>
        requires first { All IsNarrow first.now }
        requires second { All IsNarrow second.now }
        requires long { length picks.now ≡ length (first.now ++ second.now) }
        requires arrays_long { length array_picks.now ≡ length arrays.now }
        requires picks { ArePicks (length self.now.full) picks.now }
        requires array_picks { ArePicks (length self.now.array_full) array_picks.now }
        ensures full { IfOk result (λ s. s.full ≡ first.now ++ second.now) }
        ensures array_full { IfOk result (λ s. s.array_full ≡ arrays.now) }
        ensures points { IfOk result (λ s. Exactly s (Projected (In self.now) picks.now array_picks.now)) }
    {
        let mut spans = self.with_arrays(alloc, first, second, arrays, array_picks)?;
        self.draw(&mut spans, picks);
        Ok(spans)
    }

    // cuts each variable to the range of the one that is picked for it
    fn draw(&self, spans: &mut Spans, picks: &[Option<u32>])
        requires long { length picks.now ≡ length spans.old.full }
        requires named { (k v : ℕ) → slice_index_or picks.now k None ≡ Some v → v < length self.now.full }
        ensures full { spans.new.full ≡ spans.old.full }
        ensures array_full { spans.new.array_full ≡ spans.old.array_full }
        ensures points { Exactly spans.new (AreCut (In spans.old) self.now picks.now (length picks.now)) }
        ensures kept { Kept self.now }
    {
        if self.is_empty() {
            spans.clear();
            return;
        }
        for k in 0..picks.len() {
            self.draw_one(spans, k, picks[k]);
        }
    }

    // cuts variable `k` to the range of the one that is picked for it
    fn draw_one(&self, spans: &mut Spans, k: usize, pick: Option<u32>)
        requires inside { k < length spans.old.full }
        requires named { (v : ℕ) → pick ≡ Some v → v < length self.now.full }
        ensures full { spans.new.full ≡ spans.old.full }
        ensures array_full { spans.new.array_full ≡ spans.old.array_full }
        ensures points { Exactly spans.new (IsCutAt (In spans.old) self.now k pick) }
    {
        match pick {
            None => {},
            Some(v) => spans.cut(k, self.range(v as usize)),
        }
    }
}
