// The least ranges and summaries that hold two, and inclusion.

ghost use Rattle.std.specs.Prelude.{◌≡◌, ℕ, ◌<◌, ◌↔◌, IsTrue, length};
ghost use Rattle.wm_domain.specs.Points.{Point, range_at};
ghost use Rattle.wm_domain.specs.Changes.{InEither};
ghost use Rattle.wm_arrays.specs.Meaning.{IsIncluded, IsLeastFor, IsEither};
ghost use Rattle.wm_spans.specs.Spanned.{cell_at, Lies};
ghost use Rattle.wm_spans.specs.Exact.{IsJoined};

use crate::spans::{Spans, put_range, put_summary, range_of, summary_of};
use wm_arrays::Summary;
use wm_interval::Interval;

impl Spans {
    ghost use Rattle.wm_spans.specs.Spanned.{In};
    ghost use Rattle.wm_spans.specs.Exact.{IsSpanned};

    /// Becomes the least that holds the points of both, which have the same full ranges.
    pub fn join_with(&mut self, other: &Spans)
        requires full { self.old.full ≡ other.now.full }
        requires array_full { self.old.array_full ≡ other.now.array_full }
        ensures full { self.new.full ≡ self.old.full }
        ensures array_full { self.new.array_full ≡ self.old.array_full }
        ensures kept { (p : Point) → InEither (In self.old) (In other.now) p → In self.new p }
        ensures spanned { (p : Point) → In self.new p → IsSpanned (length self.old.full) (length self.old.array_full) (InEither (In self.old) (In other.now)) p }
    {
        if other.is_empty() {
            return;
        }
        if self.is_empty() {
            self.become_like(other);
            return;
        }
        self.raise(other);
    }

    /// Whether each point is one of the other, which has the same full ranges.
    pub fn within(&self, other: &Spans) -> bool
        requires full { self.now.full ≡ other.now.full }
        requires array_full { self.now.array_full ≡ other.now.array_full }
        ensures inclusion { IsTrue result ↔ ((p : Point) → In self.now p → In other.now p) }
    {
        if self.is_empty() {
            return true;
        }
        if other.is_empty() {
            return false;
        }
        self.is_below(other)
    }
}

/// Joins each range with the other at its place.
pub(crate) fn join_ranges(ranges: &mut [Interval], others: &[Interval])
    requires { length ranges.old ≡ length others.now }
    ensures long { length ranges.new ≡ length ranges.old }
    ensures each { (v : ℕ) → v < length ranges.old → IsJoined (range_at ranges.old v) (range_at others.now v) (range_at ranges.new v) }
{
    for v in 0..others.len() {
        let joined = range_of(ranges, v).join(range_of(others, v));
        put_range(ranges, v, joined);
    }
}

/// Joins each summary with the other at its place.
pub(crate) fn join_summaries(cells: &mut [Summary], others: &[Summary])
    requires { length cells.old ≡ length others.now }
    ensures long { length cells.new ≡ length cells.old }
    ensures each { (a : ℕ) → a < length cells.old → IsLeastFor (IsEither (cell_at cells.old a) (cell_at others.now a)) (cell_at cells.new a) }
{
    for a in 0..others.len() {
        let joined = summary_of(cells, a).join(summary_of(others, a));
        put_summary(cells, a, joined);
    }
}

/// Whether each range lies in the other at its place.
pub(crate) fn ranges_below(ranges: &[Interval], others: &[Interval]) -> bool
    requires { length ranges.now ≡ length others.now }
    ensures { IsTrue result ↔ ((v : ℕ) → v < length ranges.now → Lies (range_at others.now v) (range_at ranges.now v)) }
{
    for v in 0..ranges.len() {
        let lies = range_of(ranges, v).within(range_of(others, v));
        if !lies {
            return false;
        }
    }
    true
}

/// Whether each summary allows no more than the other at its place.
pub(crate) fn summaries_below(cells: &[Summary], others: &[Summary]) -> bool
    requires { length cells.now ≡ length others.now }
    ensures { IsTrue result ↔ ((a : ℕ) → a < length cells.now → IsIncluded (cell_at cells.now a) (cell_at others.now a)) }
{
    for a in 0..cells.len() {
        let lies = summary_of(cells, a).within(summary_of(others, a));
        if !lies {
            return false;
        }
    }
    true
}
