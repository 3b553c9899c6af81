// Ties beside ranges and summaries.

ghost use Rattle.std.specs.Prelude.{◌≡◌, ◌≢◌, [], ◌∷◌, ◌^◌, ℕ, ℤ, ◌<◌, ◌≤◌, ◌+◌, ◌-◌, ◌++◌, All, IfOk, IsTrue, ◌↔◌, length};
ghost use Rattle.std.specs.Bool.{MatchBool};
ghost use Rattle.wm_interval.specs.Holds.{Holds, IsHullOf, SizesBelow};
ghost use Rattle.wm_domain.specs.Points.{Point, range_at, IsNarrow};
ghost use Rattle.wm_domain.specs.Changes.{IsValueOf, Freed, ArraySet, Written, IsCellOf, InEither};
ghost use Rattle.wm_arrays.specs.Meaning.{IsLeastFor};
ghost use Rattle.wm_domain.specs.Terms.{SumIn, NearTerm};
ghost use Rattle.wm_spans.specs.Exact.{IsBlank, Bounded, IsSumValue};
ghost use Rattle.wm_tied.specs.Leaving.{IsAlike, IsExactly, IsLeft};

use std::alloc::Global;
use std::marker::Model;
use wm_arrays::Summary;
use wm_domain::Term;
use wm_interval::Interval;
use wm_ops::NoMemory;
use wm_spans::Spans;
use wm_ties::Ties;

/// The variables of a group, of which sums and differences of two are bounded, other variables with a range each, and arrays
/// with a summary each; or there is no point. A number outside the full range of its variable or array is none of a point.
#[derive(Drop)]
pub struct Tied {
    group: Vec<Interval>,
    ties: Ties,
    spans: Spans,
}

impl Model for Tied {
    ghost use Rattle.wm_tied.specs.Pointed.{TiedView, IsTied};

    ghost Value = { TiedView };

    ghost view = { λ t. record { group = t.group.items; ties = t.ties; spans = t.spans } };

    ghost invariant = { λ t. IsTied t.group.items t.ties };
}

impl Tied {
    ghost use Rattle.wm_tied.specs.Pointed.{In, HasPoint, IsTied};

    /// Each variable has any number of its full range, of 32 bits, and no cell is set. The group has at most 32 variables.
    /// `NoMemory`: memory ran out.
    pub fn new(
        alloc: Global,
        group: &[Interval],
        singles: &[Interval],
        arrays: &[Interval],
    ) -> Result<Tied, NoMemory>
        requires few { length group.now ≤ 32 }
        requires group { All IsNarrow group.now }
        requires singles { All IsNarrow singles.now }
        ensures group { IfOk result (λ t. t.group ≡ group.now) }
        ensures full { IfOk result (λ t. t.spans.full ≡ singles.now) }
        ensures array_full { IfOk result (λ t. t.spans.array_full ≡ arrays.now) }
        ensures points { IfOk result (λ t. IsExactly t (IsBlank (length arrays.now))) }
    {
        let full = Vec::from_slice(alloc, group)?;
        let ties = Ties::new(alloc, group)?;
        let spans = Spans::new(alloc, &[], singles, arrays)?;
        Ok(Tied {
            group: full,
            ties,
            spans,
        })
    }

    /// Whether there is no point.
    pub fn is_empty(&self) -> bool
        ensures points { MatchBool result ((p : Point) → In self.now p → ⊥) (HasPoint self.now) }
        ensures tied { IsTied self.now.group self.now.ties }
    {
        if self.spans.is_empty() {
            return true;
        }
        self.ties.is_empty()
    }

    /// Takes every point away.
    pub fn clear(&mut self)
        ensures alike { IsAlike self.old self.new }
        ensures none { (p : Point) → In self.new p → ⊥ }
    {
        self.spans.clear();
    }

    /// The least and the greatest number of variable `v`, where there is a point.
    pub fn range(&self, v: usize) -> Interval
        requires inside { v < length self.now.group + length self.now.spans.full }
        ensures hull { HasPoint self.now → IsHullOf (IsValueOf (In self.now) v) result }
        ensures narrow { IsNarrow result }
    {
        if v < self.group.len() {
            return self.ties.range(v);
        }
        self.spans.range(v - self.group.len())
    }

    /// The full range of variable `v`.
    pub fn full_range(&self, v: usize) -> Interval
        requires inside { v < length self.now.group + length self.now.spans.full }
        ensures value { result ≡ range_at (self.now.group ++ self.now.spans.full) v }
        ensures narrow { IsNarrow result }
    {
        if v < self.group.len() {
            return at(self.group.as_slice(), v);
        }
        self.spans.full_range(v - self.group.len())
    }

    /// Keeps the points at which variable `v` lies in `r`.
    pub fn cut(&mut self, v: usize, r: Interval)
        requires inside { v < length self.old.group + length self.old.spans.full }
        ensures alike { IsAlike self.old self.new }
        ensures points { IsExactly self.new (Bounded (In self.old) v r) }
    {
        let count = self.group.len();
        if v < count {
            self.cut_tied(v, r);
        } else {
            self.cut_single(v - count, r);
        }
    }

    // the same for a variable of the group
    fn cut_tied(&mut self, v: usize, r: Interval)
        requires inside { v < length self.old.group }
        ensures alike { IsAlike self.old self.new }
        ensures points { IsExactly self.new (Bounded (In self.old) v r) }
    {
        match at(self.group.as_slice(), v).meet(r) {
            None => self.spans.clear(),
            Some(common) => self.ties.cut(v, common),
        }
    }

    // the same for a variable past the group
    fn cut_single(&mut self, k: usize, r: Interval)
        requires inside { k < length self.old.spans.full }
        ensures alike { IsAlike self.old self.new }
        ensures points { IsExactly self.new (Bounded (In self.old) (length self.old.group + k) r) }
    {
        self.spans.cut(k, r);
    }

    /// Sets variable `v` to any number of `r` that lies in its full range.
    pub fn free(&mut self, v: usize, r: Interval)
        requires inside { v < length self.old.group + length self.old.spans.full }
        ensures alike { IsAlike self.old self.new }
        ensures points { IsExactly self.new (Freed (In self.old) v r) }
    {
        let count = self.group.len();
        if v < count {
            self.free_tied(v, r);
        } else {
            self.free_single(v - count, r);
        }
    }

    // the same for a variable of the group
    fn free_tied(&mut self, v: usize, r: Interval)
        requires inside { v < length self.old.group }
        ensures alike { IsAlike self.old self.new }
        ensures points { IsExactly self.new (Freed (In self.old) v r) }
    {
        match at(self.group.as_slice(), v).meet(r) {
            None => self.spans.clear(),
            Some(common) => self.ties.free(v, common),
        }
    }

    // the same for a variable past the group
    fn free_single(&mut self, k: usize, r: Interval)
        requires inside { k < length self.old.spans.full }
        ensures alike { IsAlike self.old self.new }
        ensures points { IsExactly self.new (Freed (In self.old) (length self.old.group + k) r) }
    {
        self.spans.free(k, r);
    }

    /// What the set cells of array `a` hold, where there is a point.
    pub fn array(&self, a: usize) -> Summary
        requires inside { a < length self.now.spans.array_full }
        ensures least { HasPoint self.now → IsLeastFor (IsCellOf (In self.now) a) result }
    {
        self.spans.array(a)
    }

    /// Replaces what the cells of array `a` hold by what `s` allows of their full range.
    pub fn set_array(&mut self, a: usize, s: Summary)
        requires inside { a < length self.old.spans.array_full }
        ensures alike { IsAlike self.old self.new }
        ensures points { IsExactly self.new (ArraySet (In self.old) a s) }
    {
        self.spans.set_array(a, s);
    }

    /// The same once more. `NoMemory`: memory ran out.
    pub fn copy(&self, alloc: Global) -> Result<Tied, NoMemory>
        ensures same { IfOk result (λ t. t ≡ self.now) }
    {
        let group = Vec::from_slice(alloc, self.group.as_slice())?;
        let ties = self.ties.copy(alloc)?;
        let spans = self.spans.copy(alloc)?;
        Ok(Tied { group, ties, spans })
    }

    /// Whether each point is one of the other, which has the same full ranges.
    pub fn within(&self, other: &Tied) -> bool
        requires alike { IsAlike self.now other.now }
        ensures inclusion { IsTrue result ↔ ((p : Point) → In self.now p → In other.now p) }
    {
        if self.is_empty() {
            return true;
        }
        if !self.ties.within(&other.ties) {
            return false;
        }
        self.spans.within(&other.spans)
    }

    /// Writes a number of `r` that lies in the full range to some cell of array `a`, which has `count` cells.
    pub fn write(&mut self, a: usize, r: Interval, count: u32)
        requires inside { a < length self.old.spans.array_full }
        ensures alike { IsAlike self.old self.new }
        ensures left { IsLeft self.new (Written (In self.old) (range_at self.old.spans.array_full a) a r count) }
    {
        self.spans.write(a, r, count);
    }

    /// Becomes the least that holds the points of both, which have the same full ranges.
    pub fn join_with(&mut self, other: &Tied)
        requires alike { IsAlike self.old other.now }
        ensures alike { IsAlike self.old self.new }
        ensures left { IsLeft self.new (InEither (In self.old) (In other.now)) }
    {
        if other.is_empty() {
            return;
        }
        if self.is_empty() {
            self.become_like(other);
            return;
        }
        self.raise(other);
    }

    // takes over all points of the other, which has one
    fn become_like(&mut self, other: &Tied)
        requires alike { IsAlike self.old other.now }
        requires some { HasPoint other.now }
        ensures alike { IsAlike self.old self.new }
        ensures points { (p : Point) → In self.new p ↔ In other.now p }
    {
        self.ties.become_like(&other.ties);
        self.spans.become_like(&other.spans);
    }

    // joins the ties, and all else, of two that have points
    fn raise(&mut self, other: &Tied)
        requires alike { IsAlike self.old other.now }
        requires here { HasPoint self.old }
        requires there { HasPoint other.now }
        ensures alike { IsAlike self.old self.new }
        ensures left { IsLeft self.new (InEither (In self.old) (In other.now)) }
    {
        self.ties.join_with(&other.ties);
        self.spans.join_with(&other.spans);
    }

    /// The full ranges of the variables of the group.
    pub fn group(&self) -> &[Interval]
        ensures value { result.now ≡ self.now.group }
    {
        self.group.as_slice()
    }

    /// How many variables the group has.
    pub fn count(&self) -> usize
        ensures value { result ≡ length self.now.group }
    {
        self.group.as_slice().len()
    }

    /// The ties of the group.
    pub fn ties(&self) -> &Ties
        ensures value { result.now ≡ self.now.ties }
    {
        &self.ties
    }

    /// The ranges of the variables past the group, and the summaries.
    pub fn spans(&self) -> &Spans
        ensures value { result.now ≡ self.now.spans }
    {
        &self.spans
    }

    /// The state of these parts. The ties are those of the group, and none of their points lies outside its full ranges.
    /// `NoMemory`: memory ran out.
    pub fn of_parts(
        alloc: Global,
        group: &[Interval],
        ties: Ties,
        spans: Spans,
    ) -> Result<Tied, NoMemory>
        requires tied { IsTied group.now ties }
        ensures value { IfOk result (λ t. t ≡ record { group = group.now; ties = ties; spans = spans }) }
    {
        let full = Vec::from_slice(alloc, group)?;
        Ok(Tied {
            group: full,
            ties,
            spans,
        })
    }

    // the least and the greatest sum of two terms of the group, where there is a point
    pub(crate) fn tied_range(&self, a: Term, b: Term) -> Interval
        requires first { a.variable < length self.now.group }
        requires second { b.variable < length self.now.group }
        requires apart { a.variable ≢ b.variable }
        ensures hull { HasPoint self.now → IsHullOf (IsSumValue (In self.now) (a ∷ b ∷ [])) result }
        ensures size { SizesBelow (2 ^ 34) result }
    {
        self.ties.sum(a, b)
    }

    // keeps the points at which the sum of two terms of the group lies in `r`
    pub(crate) fn cut_tied_sum(&mut self, a: Term, b: Term, r: Interval)
        requires first { a.variable < length self.old.group }
        requires second { b.variable < length self.old.group }
        requires size { SizesBelow (2 ^ 60) r }
        ensures alike { IsAlike self.old self.new }
        ensures points { IsExactly self.new (SumIn (In self.old) (a ∷ b ∷ []) r.low r.high) }
    {
        self.ties.cut_sum(a, b, r);
    }

    // sets a variable of the group to any number of `r`, a part of its full range, that differs from a term of the group by a
    // number of `d`
    pub(crate) fn follow_tied(&mut self, v: usize, t: Term, d: Interval, r: Interval)
        requires inside { v < length self.old.group }
        requires from { t.variable < length self.old.group }
        requires narrow { IsNarrow r }
        requires lies { (z : ℤ) → Holds r z → Holds (range_at self.old.group v) z }
        ensures alike { IsAlike self.old self.new }
        ensures points { IsExactly self.new (NearTerm (In self.old) v t d r) }
    {
        self.ties.follow(v, t, d, r);
    }
}

fn at(ranges: &[Interval], v: usize) -> Interval
    requires { v < length ranges.now }
    ensures { result ≡ range_at ranges.now v }
{
    ranges[v]
}
