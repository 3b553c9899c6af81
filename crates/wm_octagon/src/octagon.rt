//! The octagon: integer bounds on variables, their sums and their differences, each attained while there is a point.

ghost use Rattle.std.specs.Prelude.{◌≡◌, ◌≢◌, ◌↔◌, ℕ, ◌+◌, ◌*◌, ◌^◌, ◌<◌, ◌≤◌, ℤ, pos, negsuc, neg_ℤ, ◌+ℤ◌, ◌-ℤ◌, ◌≤ℤ◌, unsigned_abs, IsTrue, IfOk, All, length, ◌/◌, MatchOption, IfSome, IsSome, Option, Some, None, if◌then◌else◌};
ghost use Rattle.std.specs.Bool.{MatchBool};
ghost use Rattle.wm_octagon.specs.Ranges.{IsNarrow, InRanges};
ghost use Rattle.wm_octagon.specs.Points.{side_value};
ghost use Rattle.wm_octagon.specs.Layout.{opposite};
ghost use Rattle.wm_octagon.specs.Ways.{at, AllSmall};

use crate::assigning::Assigning;
use crate::changes::Loosening;
use crate::half::{Half, halved};
use crate::layout::{MOST_SIDES, opposite, row_len};
use crate::projecting::{Projecting, drawn_tops, is_own};
use std::alloc::Global;
use std::marker::Model;
use wm_interval::Interval;
use wm_ops::NoMemory;

/// A variable, or its negative.
#[derive(Clone, Copy, Debug, PartialEq, Eq)]
pub struct Side {
    /// The number of the variable.
    pub variable: usize,
    /// Whether the variable's negative is meant.
    pub negative: bool,
}

impl Side {
    ghost use Rattle.wm_octagon.specs.Sides.{number_of};

    // the number of the side in a half table
    #[inline(always)]
    fn number(self) -> usize
        requires { self.variable < 32 }
        ensures value { result ≡ number_of self }
    {
        if self.negative {
            return 2 * self.variable + 1;
        }
        2 * self.variable
    }
}

/// The least and greatest values of some variables, and of the sums and differences of any two of them. Its points are the
/// integer points that meet all these bounds; while it has a point, one attains each bound.
#[derive(Drop)]
pub struct Octagon {
    half: Half,
    empty: bool,
}

impl Model for Octagon {
    ghost use Rattle.std.specs.Prelude.{if◌then◌else◌, Some, None};
    ghost use Rattle.wm_octagon.specs.View.{OctagonView, IsKept};

    ghost Value = { OctagonView };

    ghost view = { λ o. record { variables = o.half.variables; bounds = if o.empty then None else Some o.half.bounds } };

    ghost invariant = { λ o. IsKept o.half.variables o.half.bounds o.empty };
}

impl Octagon {
    ghost use Rattle.wm_octagon.specs.View.{Holds, IsLeast, IsTightView, WithDifference};
    ghost use Rattle.wm_octagon.specs.Joining.{InEither};
    ghost use Rattle.wm_octagon.specs.Sides.{number_of, IsRangeOf, IsGreatestSum, WithSum, WithRange, FreedOf};
    ghost use Rattle.wm_octagon.specs.Assigning.{AssignedOf};
    ghost use Rattle.wm_octagon.specs.Projecting.{ProjectedOf};
    ghost use Rattle.wm_numbers.specs.Within.{Within};

    /// Each variable has any number of its range. There are at most 32 ranges, whose ends have 32 bits. `NoMemory`: memory
    /// ran out.
    pub fn new(alloc: Global, ranges: &[Interval]) -> Result<Octagon, NoMemory>
        requires few { length ranges.now ≤ 32 }
        requires narrow { All IsNarrow ranges.now }
        ensures variables { IfOk result (λ o. o.variables ≡ length ranges.now) }
        ensures least { IfOk result (λ o. IsLeast o (InRanges ranges.now)) }
    {
        let half = Half::new(alloc, ranges)?;
        Ok(Octagon { half, empty: false })
    }

    /// Whether it has no point.
    pub fn is_empty(&self) -> bool
        ensures value { IsTrue result ↔ (self.now.bounds ≡ None) }
        ensures points { IsTrue result ↔ ((x : ℕ → ℤ) → Holds self.now x → ⊥) }

        // while it has a point, one attains each bound
        ensures tight { IsTightView self.now }
    {
        self.empty
    }

    /// The least and the greatest value of variable `v`, or None exactly where there is no point.
    pub fn range(&self, v: usize) -> Option<Interval>
        requires { v < self.now.variables }
        ensures none { MatchOption result (self.now.bounds ≡ None) (λ r. IsSome self.now.bounds) }
        ensures points { MatchOption result ((x : ℕ → ℤ) → Holds self.now x → ⊥) (λ r. IsTightView self.now) }
        ensures ends { IfSome result (λ r. IsRangeOf self.now v r.low r.high) }
    {
        if self.empty {
            return None;
        }
        let high = halved(self.half.bound(2 * v + 1, 2 * v));
        let low = halved(self.half.bound(2 * v, 2 * v + 1));
        Some(Interval::new(-low, high))
    }

    /// The greatest value of the sum of two sides of different variables, or None exactly where there is no point.
    pub fn bound(&self, a: Side, b: Side) -> Option<i64>
        requires first { a.variable < self.now.variables }
        requires second { b.variable < self.now.variables }
        requires apart { a.variable ≢ b.variable }
        ensures none { MatchOption result (self.now.bounds ≡ None) (λ z. IsSome self.now.bounds) }
        ensures points { MatchOption result ((x : ℕ → ℤ) → Holds self.now x → ⊥) (λ z. IsTightView self.now) }
        ensures greatest { IfSome result (λ z. IsGreatestSum self.now a b z) }
    {
        if self.empty {
            return None;
        }
        Some(self.half.bound(opposite(a.number()), b.number()))
    }

    /// Keeps the points at which the sum of the sides `a` and `b` is at most `c`, a number below 2^40 in size.
    pub fn add_bound(&mut self, a: Side, b: Side, c: i64)
        requires first { a.variable < self.old.variables }
        requires second { b.variable < self.old.variables }
        requires size { unsigned_abs c < 2 ^ 40 }
        ensures variables { self.new.variables ≡ self.old.variables }
        ensures least { IsLeast self.new (WithSum self.old a b c) }
    {
        let k = opposite(self.place_of(a));
        let l = self.place_of(b);
        self.keep(k, l, c);
    }

    /// Keeps the points at which variable `v` lies in `r`, whose ends are below 2^40 in size.
    pub fn add_range(&mut self, v: usize, r: Interval)
        requires inside { v < self.old.variables }
        requires low_size { unsigned_abs r.low < 2 ^ 40 }
        requires high_size { unsigned_abs r.high < 2 ^ 40 }
        ensures variables { self.new.variables ≡ self.old.variables }
        ensures least { IsLeast self.new (WithRange self.old v r.low r.high) }
    {
        let (plus, minus) = self.sides_of(v);
        self.keep(minus, plus, 2 * r.high);
        self.keep(plus, minus, -2 * r.low);
    }

    /// Sets variable `v` to any number of `r`, whose ends are below 2^40 in size.
    pub fn forget(&mut self, v: usize, r: Interval)
        requires inside { v < self.old.variables }
        requires low_size { unsigned_abs r.low < 2 ^ 40 }
        requires high_size { unsigned_abs r.high < 2 ^ 40 }
        ensures variables { self.new.variables ≡ self.old.variables }
        ensures least { IsLeast self.new (FreedOf self.old v r.low r.high) }
    {
        if self.empty {
            return;
        }
        let change = Loosening {
            variable: v,
            tops: freed_tops(self.half.tops(), v, r),
        };
        self.half.change(&change);
    }

    /// Sets variable `v` to itself plus `c`, or to its negative plus `c`. `c` and the new values are below 2^40 in size.
    pub fn shift(&mut self, v: usize, negate: bool, c: i64)
        requires inside { v < self.old.variables }
        requires size { unsigned_abs c < 2 ^ 40 }
        requires fits { (x : ℕ → ℤ) → AssignedOf self.old v (2 * v + (if negate then 1 else 0)) c c x → Within (negsuc 1099511627774) (pos 1099511627775) (x v) }
        ensures variables { self.new.variables ≡ self.old.variables }
        ensures least { IsLeast self.new (AssignedOf self.old v (2 * v + (if negate then 1 else 0)) c c) }
    {
        let (plus, minus) = self.sides_of(v);
        let source = if negate { minus } else { plus };
        self.assign(v, source, Interval::new(c, c));
    }

    /// Sets variable `v` to variable `w` plus any number of `d`; both may be one variable. The numbers of `d` and the new
    /// values are below 2^40 in size.
    pub fn assign_difference(&mut self, v: usize, w: usize, d: Interval)
        requires inside { v < self.old.variables }
        requires from { w < self.old.variables }
        requires low_size { unsigned_abs d.low < 2 ^ 40 }
        requires high_size { unsigned_abs d.high < 2 ^ 40 }
        requires fits { (x : ℕ → ℤ) → AssignedOf self.old v (2 * w) d.low d.high x → Within (negsuc 1099511627774) (pos 1099511627775) (x v) }
        ensures variables { self.new.variables ≡ self.old.variables }
        ensures least { IsLeast self.new (AssignedOf self.old v (2 * w) d.low d.high) }
    {
        let (source, _) = self.sides_of(w);
        self.assign(v, source, d);
    }

    // sets variable `v` to the value of side `source` and a number of `d`
    fn assign(&mut self, v: usize, source: usize, d: Interval)
        requires inside { v < self.old.variables }
        requires source { source < 2 * self.old.variables }
        requires low_size { unsigned_abs d.low < 2 ^ 40 }
        requires high_size { unsigned_abs d.high < 2 ^ 40 }
        requires fits { (x : ℕ → ℤ) → AssignedOf self.old v source d.low d.high x → Within (negsuc 1099511627774) (pos 1099511627775) (x v) }
        ensures variables { self.new.variables ≡ self.old.variables }
        ensures least { IsLeast self.new (AssignedOf self.old v source d.low d.high) }
    {
        if self.empty {
            return;
        }
        let change = Assigning {
            variable: v,
            source,
            source_row: self.half.row(source),
            mirror_row: self.half.row(opposite(source)),
            low: d.low,
            high: d.high,
        };
        self.half.change(&change);
    }

    // the numbers of the two sides of a variable
    fn sides_of(&self, v: usize) -> (usize, usize)
        requires { v < self.now.variables }
        ensures plus { result.0 ≡ 2 * v }
        ensures minus { result.1 ≡ 2 * v + 1 }
    {
        let _ = &self.half;
        (2 * v, 2 * v + 1)
    }

    /// Becomes the least octagon that holds the points of both, which have equally many variables.
    pub fn join_with(&mut self, other: &Octagon)
        requires { self.old.variables ≡ other.now.variables }
        ensures variables { self.new.variables ≡ self.old.variables }
        ensures least { IsLeast self.new (InEither self.old other.now) }
    {
        let _ = &self.half;
        if other.empty {
            return;
        }
        if self.empty {
            self.half.become_like(&other.half);
            self.empty = false;
            return;
        }
        self.half.raise(&other.half);
    }

    /// Whether each point is one of the other, which has equally many variables.
    pub fn within(&self, other: &Octagon) -> bool
        requires { self.now.variables ≡ other.now.variables }
        ensures inclusion { IsTrue result ↔ ((x : ℕ → ℤ) → Holds self.now x → Holds other.now x) }
    {
        if self.empty {
            return true;
        }
        if other.empty {
            return false;
        }
        self.half.is_below(&other.half)
    }

    /// The same octagon once more. `NoMemory`: memory ran out.
    pub fn copy(&self, alloc: Global) -> Result<Octagon, NoMemory>
        ensures same { IfOk result (λ o. o ≡ self.now) }
    {
        let half = self.half.copy(alloc)?;
        Ok(Octagon {
            half,
            empty: self.empty,
        })
    }

    /// The octagon whose variable k is the variable `keep[k]` of this one, or any number of `ranges[k]` where that is None.
    /// Both lists have one length of at most 32, and the ranges' ends have 32 bits. `NoMemory`: memory ran out.
    pub fn project(
        &self,
        alloc: Global,
        keep: &[Option<usize>],
        ranges: &[Interval],
    ) -> Result<Octagon, NoMemory>
        requires few { length keep.now ≤ 32 }
        requires long { length ranges.now ≡ length keep.now }
        requires named { All (λ p. IfSome p (λ v. v < self.now.variables)) keep.now }
        requires narrow { All IsNarrow ranges.now }
        ensures variables { IfOk result (λ o. o.variables ≡ length keep.now) }
        ensures least { IfOk result (λ o. IsLeast o (ProjectedOf self.now keep.now ranges.now)) }
    {
        if self.empty {
            let none = Half::zero(alloc, keep.len())?;
            return Ok(Octagon {
                half: none,
                empty: true,
            });
        }
        if is_own(keep, self.half.sides()) {
            let same = self.half.copy(alloc)?;
            return Ok(Octagon {
                half: same,
                empty: false,
            });
        }
        let mut half = Half::zero(alloc, keep.len())?;
        let change = Projecting {
            half: &self.half,
            keep,
            tops: drawn_tops(&self.half.tops(), keep, ranges),
        };
        half.change(&change);
        Ok(Octagon { half, empty: false })
    }

    // the number of a side in the half table
    fn place_of(&self, side: Side) -> usize
        requires { side.variable < self.now.variables }
        ensures value { result ≡ number_of side }
        ensures inside { result < 2 * self.now.variables }
        ensures low { result < 64 }
    {
        let _ = &self.half;
        side.number()
    }

    // keeps the points at which side `l` less side `k` is at most `c`
    fn keep(&mut self, k: usize, l: usize, c: i64)
        requires first { k < 2 * self.old.variables }
        requires second { l < 2 * self.old.variables }
        requires size { unsigned_abs c < 2 ^ 42 }
        ensures variables { self.new.variables ≡ self.old.variables }
        ensures least { IsLeast self.new (WithDifference self.old k l c) }
    {
        if self.empty {
            return;
        }
        if k == l {
            self.empty = c < 0;
            return;
        }
        let open = if l < row_len(k) {
            self.half.close_one(k, l, c)
        } else {
            self.half.close_one(opposite(l), opposite(k), c)
        };
        self.empty = !open;
    }
}

// the greatest value of each side, where variable `v` has any number of `r`
fn freed_tops(tops: [i64; MOST_SIDES], v: usize, r: Interval) -> [i64; MOST_SIDES]
    requires inside { v < 32 }
    requires low_size { unsigned_abs r.low < 2 ^ 40 }
    requires high_size { unsigned_abs r.high < 2 ^ 40 }
    requires small { AllSmall tops }
    ensures plus { at result (2 * v) ≡ r.high }
    ensures minus { at result (2 * v + 1) ≡ neg_ℤ r.low }
    ensures others { (k : ℕ) → k / 2 ≢ v → at result k ≡ at tops k }
    ensures small { AllSmall result }
{
    let mut freed = tops;
    freed[2 * v] = r.high;
    freed[2 * v + 1] = -r.low;
    freed
}
