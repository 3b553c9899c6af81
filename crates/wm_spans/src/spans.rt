// The ranges of some variables and the summaries of some arrays.

ghost use Rattle.std.specs.Prelude.{◌≡◌, ℕ, ◌<◌, List, ◌++◌, length, slice_set, true, false, ℤ, IfOk, All, IsTrue, ◌↔◌};
ghost use Rattle.wm_interval.specs.Holds.{Holds};
ghost use Rattle.wm_arrays.specs.Meaning.{Allows};
ghost use Rattle.wm_domain.specs.Points.{Point, range_at, IsNarrow, IsInside};
ghost use Rattle.wm_domain.specs.Changes.{Freed, ArraySet, Written};
ghost use Rattle.wm_spans.specs.Spanned.{cell_at, Lies, CellsLie};

use crate::joining::{join_ranges, join_summaries, ranges_below, summaries_below};
use std::alloc::Global;
use std::marker::Model;
use wm_arrays::Summary;
use wm_interval::Interval;
use wm_ops::NoMemory;

/// Each variable has any number of its range, and each set cell of an array a number of its summary; or there is no point.
/// A number outside the full range of its variable or array is none of a point. Full ranges of variables have 32 bits.
#[derive(Drop)]
pub struct Spans {
    full: Vec<Interval>,
    array_full: Vec<Interval>,
    ranges: Vec<Interval>,
    cells: Vec<Summary>,
    empty: bool,
}

impl Model for Spans {
    ghost use Rattle.wm_spans.specs.Spanned.{Spanned, IsKept};

    ghost Value = { Spanned };

    ghost view = { λ s. record { full = s.full.items; array_full = s.array_full.items; ranges = s.ranges.items; cells = s.cells.items; empty = s.empty } };

    ghost invariant = { λ s. IsKept s.full.items s.array_full.items s.ranges.items s.cells.items };
}

impl Spans {
    ghost use Rattle.wm_spans.specs.Spanned.{Kept, In, IsKept};
    ghost use Rattle.wm_spans.specs.Exact.{Exactly, Bounded, IsNearCell, IsRaised, IsBelow};

    /// Whether there is no point.
    pub fn is_empty(&self) -> bool
        ensures value { result ≡ self.now.empty }
        ensures kept { Kept self.now }
    {
        self.empty
    }

    /// Takes every point away.
    pub fn clear(&mut self)
        ensures value { self.new ≡ record self.old { empty = true } }
    {
        self.empty = true;
    }

    /// The range of variable `v`, of 32 bits: the least and the greatest number that it has, where there is a point.
    pub fn range(&self, v: usize) -> Interval
        requires inside { v < length self.now.full }
        ensures value { result ≡ range_at self.now.ranges v }
        ensures narrow { IsNarrow result }
        ensures kept { Kept self.now }
    {
        range_of(self.ranges.as_slice(), v)
    }

    /// The full ranges of the variables.
    pub fn full(&self) -> &[Interval]
        ensures value { result.now ≡ self.now.full }
    {
        self.full.as_slice()
    }

    /// The full ranges of the cells of the arrays.
    pub fn array_full(&self) -> &[Interval]
        ensures value { result.now ≡ self.now.array_full }
    {
        self.array_full.as_slice()
    }

    /// The full range of variable `v`.
    pub fn full_range(&self, v: usize) -> Interval
        requires inside { v < length self.now.full }
        ensures value { result ≡ range_at self.now.full v }
        ensures narrow { IsNarrow result }
        ensures kept { Kept self.now }
    {
        range_of(self.full.as_slice(), v)
    }

    // the range of each variable
    pub(crate) fn ranges(&self) -> &[Interval]
        ensures value { result.now ≡ self.now.ranges }
        ensures kept { Kept self.now }
    {
        self.ranges.as_slice()
    }

    // the summary of each array
    pub(crate) fn cells(&self) -> &[Summary]
        ensures value { result.now ≡ self.now.cells }
    {
        self.cells.as_slice()
    }

    // gives variable `v` a range within its full one
    fn put(&mut self, v: usize, r: Interval)
        requires inside { v < length self.old.full }
        requires lies { Lies (range_at self.old.full v) r }
        ensures value { self.new ≡ record self.old { ranges = slice_set self.old.ranges v r } }
    {
        put_range(self.ranges.as_mut_slice(), v, r);
    }

    /// Keeps the points at which variable `v` lies in `r`.
    pub fn cut(&mut self, v: usize, r: Interval)
        requires inside { v < length self.old.full }
        ensures full { self.new.full ≡ self.old.full }
        ensures array_full { self.new.array_full ≡ self.old.array_full }
        ensures points { Exactly self.new (Bounded (In self.old) v r) }
    {
        match self.range(v).meet(r) {
            None => self.clear(),
            Some(common) => self.put(v, common),
        }
    }

    /// Sets variable `v` to any number of `r` that lies in its full range.
    pub fn free(&mut self, v: usize, r: Interval)
        requires inside { v < length self.old.full }
        ensures full { self.new.full ≡ self.old.full }
        ensures array_full { self.new.array_full ≡ self.old.array_full }
        ensures points { Exactly self.new (Freed (In self.old) v r) }
    {
        match self.full_range(v).meet(r) {
            None => self.clear(),
            Some(common) => self.put(v, common),
        }
    }

    /// What the set cells of array `a` hold, where there is a point.
    pub fn array(&self, a: usize) -> Summary
        requires inside { a < length self.now.array_full }
        ensures value { result ≡ cell_at self.now.cells a }
        ensures lies { CellsLie (range_at self.now.array_full a) result }
        ensures kept { Kept self.now }
    {
        summary_of(self.cells.as_slice(), a)
    }

    /// The full range of the cells of array `a`.
    pub fn full_array(&self, a: usize) -> Interval
        requires inside { a < length self.now.array_full }
        ensures value { result ≡ range_at self.now.array_full a }
        ensures kept { Kept self.now }
    {
        range_of(self.array_full.as_slice(), a)
    }

    // gives array `a` a summary within its full range
    fn put_cells(&mut self, a: usize, s: Summary)
        requires inside { a < length self.old.array_full }
        requires lies { CellsLie (range_at self.old.array_full a) s }
        ensures value { self.new ≡ record self.old { cells = slice_set self.old.cells a s } }
    {
        put_summary(self.cells.as_mut_slice(), a, s);
    }

    /// Replaces what the cells of array `a` hold by what `s` allows of their full range.
    pub fn set_array(&mut self, a: usize, s: Summary)
        requires inside { a < length self.old.array_full }
        ensures full { self.new.full ≡ self.old.full }
        ensures array_full { self.new.array_full ≡ self.old.array_full }
        ensures points { Exactly self.new (ArraySet (In self.old) a s) }
    {
        let full = self.full_array(a);
        self.put_cells(a, fitted(full, s));
    }

    /// Writes a number of `r` that lies in the full range to some cell of array `a`, which has `count` cells.
    pub fn write(&mut self, a: usize, r: Interval, count: u32)
        requires inside { a < length self.old.array_full }
        ensures full { self.new.full ≡ self.old.full }
        ensures array_full { self.new.array_full ≡ self.old.array_full }
        ensures kept { (p : Point) → IsInside self.old.full self.old.array_full p → Written (In self.old) (range_at self.old.array_full a) a r count p → In self.new p }
        ensures near { (p : Point) → In self.new p → IsNearCell (Written (In self.old) (range_at self.old.array_full a) a r count) a p }
    {
        match self.full_array(a).meet(r) {
            None => self.clear(),
            Some(common) => {
                let written = self.array(a).write(common, count);
                self.put_cells(a, written);
            },
        }
    }

    /// Takes over the ranges and the summaries of another, which has points and the same full ranges.
    pub fn become_like(&mut self, other: &Spans)
        requires full { self.old.full ≡ other.now.full }
        requires array_full { self.old.array_full ≡ other.now.array_full }
        ensures value { self.new ≡ record other.now { empty = false } }
    {
        self.ranges
            .as_mut_slice()
            .copy_from_slice(other.ranges.as_slice());
        self.cells
            .as_mut_slice()
            .copy_from_slice(other.cells.as_slice());
        self.empty = false;
    }

    // joins each range and each summary with that of another
    pub(crate) fn raise(&mut self, other: &Spans)
        requires full { self.old.full ≡ other.now.full }
        requires array_full { self.old.array_full ≡ other.now.array_full }
        ensures raised { IsRaised self.old other.now self.new }
        ensures here { Kept self.old }
        ensures there { Kept other.now }
    {
        join_ranges(self.ranges.as_mut_slice(), other.ranges.as_slice());
        join_summaries(self.cells.as_mut_slice(), other.cells.as_slice());
    }

    // whether each range and each summary allows no more than that of another
    pub(crate) fn is_below(&self, other: &Spans) -> bool
        requires full { self.now.full ≡ other.now.full }
        requires array_full { self.now.array_full ≡ other.now.array_full }
        ensures value { IsTrue result ↔ IsBelow self.now other.now }
        ensures here { Kept self.now }
        ensures there { Kept other.now }
    {
        if !ranges_below(self.ranges.as_slice(), other.ranges.as_slice()) {
            return false;
        }
        summaries_below(self.cells.as_slice(), other.cells.as_slice())
    }

    // the full ranges and these summaries, which lie in those of the arrays
    pub(crate) fn begin(
        alloc: Global,
        first: &[Interval],
        second: &[Interval],
        arrays: &[Interval],
        cells: Vec<Summary>,
    ) -> Result<Spans, NoMemory>
        requires first { All IsNarrow first.now }
        requires second { All IsNarrow second.now }
        requires long { length cells.items ≡ length arrays.now }
        requires lies { (a : ℕ) → a < length arrays.now → CellsLie (range_at arrays.now a) (cell_at cells.items a) }
        ensures value { IfOk result (λ s. s ≡ record { full = first.now ++ second.now; array_full = arrays.now; ranges = first.now ++ second.now; cells = cells.items; empty = false }) }
        ensures kept { IfOk result (λ s. Kept s) }
    {
        let mut full = Vec::from_slice(alloc, first)?;
        full.extend_from_slice(second)?;
        let array_full = Vec::from_slice(alloc, arrays)?;
        let ranges = Vec::from_slice(alloc, full.as_slice())?;
        Ok(Spans {
            full,
            array_full,
            ranges,
            cells,
            empty: false,
        })
    }

    // the full ranges, and these ranges and summaries within those of the variables and of the arrays
    pub(crate) fn laid(
        alloc: Global,
        full: &[Interval],
        ranges: Vec<Interval>,
        arrays: &[Interval],
        cells: Vec<Summary>,
    ) -> Result<Spans, NoMemory>
        requires narrow { All IsNarrow full.now }
        requires ranges_long { length ranges.items ≡ length full.now }
        requires lies { (v : ℕ) → v < length full.now → Lies (range_at full.now v) (range_at ranges.items v) }
        requires long { length cells.items ≡ length arrays.now }
        requires cells_lie { (a : ℕ) → a < length arrays.now → CellsLie (range_at arrays.now a) (cell_at cells.items a) }
        ensures value { IfOk result (λ s. s ≡ record { full = full.now; array_full = arrays.now; ranges = ranges.items; cells = cells.items; empty = false }) }
        ensures kept { IfOk result (λ s. Kept s) }
    {
        let whole = Vec::from_slice(alloc, full)?;
        let array_full = Vec::from_slice(alloc, arrays)?;
        Ok(Spans {
            full: whole,
            array_full,
            ranges,
            cells,
            empty: false,
        })
    }

    // these ranges and summaries, which lie in the full ranges through the first and then the second list and in those of the
    // arrays
    pub(crate) fn of_lists(
        alloc: Global,
        first: &[Interval],
        second: &[Interval],
        arrays: &[Interval],
        ranges: Vec<Interval>,
        cells: Vec<Summary>,
        empty: bool,
    ) -> Result<Spans, NoMemory>
        requires kept { IsKept (first.now ++ second.now) arrays.now ranges.items cells.items }
        ensures value { IfOk result (λ s. s ≡ record { full = first.now ++ second.now; array_full = arrays.now; ranges = ranges.items; cells = cells.items; empty = empty }) }
    {
        let mut full = Vec::with_capacity(alloc, ranges.len())?;
        full.extend_from_slice(first)?;
        full.extend_from_slice(second)?;
        let array_full = Vec::from_slice(alloc, arrays)?;
        Ok(Spans {
            full,
            array_full,
            ranges,
            cells,
            empty,
        })
    }

    /// The same once more. `NoMemory`: memory ran out.
    pub fn copy(&self, alloc: Global) -> Result<Spans, NoMemory>
        ensures same { IfOk result (λ s. s ≡ self.now) }
    {
        let full = Vec::from_slice(alloc, self.full.as_slice())?;
        let array_full = Vec::from_slice(alloc, self.array_full.as_slice())?;
        let ranges = Vec::from_slice(alloc, self.ranges.as_slice())?;
        let cells = Vec::from_slice(alloc, self.cells.as_slice())?;
        Ok(Spans {
            full,
            array_full,
            ranges,
            cells,
            empty: self.empty,
        })
    }
}

pub(crate) fn range_of(ranges: &[Interval], v: usize) -> Interval
    requires { v < length ranges.now }
    ensures { result ≡ range_at ranges.now v }
{
    ranges[v]
}

pub(crate) fn put_range(ranges: &mut [Interval], v: usize, r: Interval)
    requires { v < length ranges.old }
    ensures { ranges.new ≡ slice_set ranges.old v r }
{
    ranges[v] = r;
}

pub(crate) fn summary_of(cells: &[Summary], a: usize) -> Summary
    requires { a < length cells.now }
    ensures { result ≡ cell_at cells.now a }
{
    cells[a]
}

pub(crate) fn put_summary(cells: &mut [Summary], a: usize, s: Summary)
    requires { a < length cells.old }
    ensures { cells.new ≡ slice_set cells.old a s }
{
    cells[a] = s;
}

// what the summary allows of the full range
pub(crate) fn fitted(full: Interval, s: Summary) -> Summary
    ensures lies { CellsLie full result }
    ensures allows { (z : ℤ) → Allows result z ↔ (Allows s z × Holds full z) }
{
    match s {
        Summary::Empty => Summary::Empty,
        Summary::Range(r) => {
            match full.meet(r) {
                None => Summary::Empty,
                Some(common) => Summary::Range(common),
            }
        },
    }
}
