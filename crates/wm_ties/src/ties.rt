// An octagon of variables of 32 bits.

ghost use Rattle.std.specs.Prelude.{◌≡◌, ◌≢◌, ◌↔◌, ℕ, ◌<◌, ◌≤◌, ◌^◌, ℤ, pos, negsuc, neg_ℤ, ◌*◌, ◌+◌, ◌≤ℤ◌, IsTrue, IfOk, IfSome, All, length, unsigned_abs};
ghost use Rattle.std.specs.Bool.{MatchBool};
ghost use Rattle.wm_interval.specs.Holds.{IsHullOf, SizesBelow};
ghost use Rattle.wm_domain.specs.Points.{IsNarrow};
ghost use Rattle.wm_numbers.specs.Within.{Within};
ghost use Rattle.wm_octagon.specs.View.{Holds};
ghost use Rattle.wm_octagon.specs.Assigning.{AssignedOf};
ghost use Rattle.wm_ties.specs.Exact.{IsNarrowly, AreInside, Beside};
ghost use Rattle.wm_octagon.specs.Sides.{signed};
ghost use Rattle.wm_domain.specs.Forms.{term_value};

use std::alloc::Global;
use std::marker::Model;
use wm_domain::Term;
use wm_interval::Interval;
use wm_octagon::{Octagon, Side};
use wm_ops::NoMemory;

/// Bounds on up to 32 variables of 32 bits, and on the sums and the differences of any two of them.
#[derive(Drop)]
pub struct Ties {
    octagon: Octagon,
    count: usize,
}

impl Model for Ties {
    ghost use Rattle.wm_octagon.specs.View.{OctagonView};
    ghost use Rattle.wm_ties.specs.Exact.{IsTies};

    ghost Value = { OctagonView };

    ghost view = { λ t. t.octagon };

    ghost invariant = { λ t. IsTies t.octagon t.count };
}

impl Ties {
    ghost use Rattle.wm_octagon.specs.View.{IsLeast};
    ghost use Rattle.wm_octagon.specs.Joining.{InEither};
    ghost use Rattle.wm_octagon.specs.Projecting.{ProjectedOf};
    ghost use Rattle.wm_octagon.specs.Sides.{IsValueOf, WithRange, FreedOf, WithSum};
    ghost use Rattle.wm_ties.specs.Exact.{HasPoint, IsPairValue, SumWithin, Follows};

    /// Whether there is no point.
    pub fn is_empty(&self) -> bool
        ensures points { MatchBool result ((x : ℕ → ℤ) → Holds self.now x → ⊥) (HasPoint self.now) }
        ensures words { IsNarrowly self.now }
    {
        self.octagon.is_empty()
    }

    /// Keeps the points at which variable `v` lies in `r`, of 32 bits.
    pub fn cut(&mut self, v: usize, r: Interval)
        requires inside { v < self.old.variables }
        requires narrow { IsNarrow r }
        ensures variables { self.new.variables ≡ self.old.variables }
        ensures points { (x : ℕ → ℤ) → Holds self.new x ↔ WithRange self.old v r.low r.high x }
    {
        self.octagon.add_range(v, r);
    }

    /// Sets variable `v` to any number of `r`, of 32 bits.
    pub fn free(&mut self, v: usize, r: Interval)
        requires inside { v < self.old.variables }
        requires narrow { IsNarrow r }
        ensures variables { self.new.variables ≡ self.old.variables }
        ensures points { (x : ℕ → ℤ) → Holds self.new x ↔ FreedOf self.old v r.low r.high x }
    {
        let _tight = self.octagon.is_empty();
        self.octagon.forget(v, r);
    }

    /// Each variable has any number of its range. There are at most 32 ranges of 32 bits. `NoMemory`: memory ran out.
    pub fn new(alloc: Global, ranges: &[Interval]) -> Result<Ties, NoMemory>
        requires few { length ranges.now ≤ 32 }
        requires narrow { All IsNarrow ranges.now }
        ensures variables { IfOk result (λ t. t.variables ≡ length ranges.now) }
        ensures points { IfOk result (λ t. (x : ℕ → ℤ) → Holds t x ↔ AreInside ranges.now x) }
    {
        let octagon = Octagon::new(alloc, ranges)?;
        Ok(Ties {
            octagon,
            count: ranges.len(),
        })
    }

    /// The least and the greatest number of variable `v`, where there is a point.
    pub fn range(&self, v: usize) -> Interval
        requires inside { v < self.now.variables }
        ensures hull { HasPoint self.now → IsHullOf (IsValueOf self.now v) result }
        ensures narrow { IsNarrow result }
    {
        match self.octagon.range(v) {
            None => Interval::new(0, 0),
            Some(r) => r,
        }
    }

    /// The least and the greatest sum of two terms of different variables, where there is a point.
    pub fn sum(&self, a: Term, b: Term) -> Interval
        requires first { a.variable < self.now.variables }
        requires second { b.variable < self.now.variables }
        requires apart { a.variable ≢ b.variable }
        ensures hull { HasPoint self.now → IsHullOf (IsPairValue self.now a b) result }
        ensures size { SizesBelow (2 ^ 34) result }
    {
        match self.octagon.bound(side(a), side(b)) {
            None => Interval::new(0, 0),
            Some(high) => match self.octagon.bound(against(a), against(b)) {
                None => Interval::new(0, 0),
                Some(low) => Interval::new(-low, high),
            },
        }
    }

    /// Keeps the points at which the sum of two terms of different variables lies in `r`, whose ends are below 2^60 in size.
    pub fn cut_sum(&mut self, a: Term, b: Term, r: Interval)
        requires first { a.variable < self.old.variables }
        requires second { b.variable < self.old.variables }
        requires size { SizesBelow (2 ^ 60) r }
        ensures variables { self.new.variables ≡ self.old.variables }
        ensures points { (x : ℕ → ℤ) → Holds self.new x ↔ SumWithin self.old a b r.low r.high x }
    {
        self.cap_sum(side(a), side(b), clamped(r.high));
        self.cap_sum(against(a), against(b), clamped_back(r.low));
    }

    // keeps the points at which the sum of two sides is at most `c`
    fn cap_sum(&mut self, a: Side, b: Side, c: i64)
        requires first { a.variable < self.old.variables }
        requires second { b.variable < self.old.variables }
        requires size { unsigned_abs c < 2 ^ 40 }
        ensures variables { self.new.variables ≡ self.old.variables }
        ensures points { (x : ℕ → ℤ) → Holds self.new x ↔ WithSum self.old a b c x }
        ensures words { IsNarrowly self.old }
    {
        self.octagon.add_bound(a, b, c);
    }

    /// Sets variable `v` to any number of `r`, of 32 bits, that differs from the term by a number of `d`. The term's variable
    /// may be `v`.
    pub fn follow(&mut self, v: usize, t: Term, d: Interval, r: Interval)
        requires inside { v < self.old.variables }
        requires from { t.variable < self.old.variables }
        requires narrow { IsNarrow r }
        ensures variables { self.new.variables ≡ self.old.variables }
        ensures points { (x : ℕ → ℤ) → Holds self.new x ↔ Follows self.old v t d r x }
    {
        match d.meet(Interval::new(-17179869184, 17179869184)) {
            None => empty_out(&mut self.octagon, v),
            Some(near) => {
                set_beside(&mut self.octagon, v, t, near);
                self.octagon.add_range(v, r);
            },
        }
    }

    /// Becomes the least that holds the points of both, which have equally many variables.
    pub fn join_with(&mut self, other: &Ties)
        requires { self.old.variables ≡ other.now.variables }
        ensures variables { self.new.variables ≡ self.old.variables }
        ensures least { IsLeast self.new (InEither self.old other.now) }
    {
        self.octagon.join_with(&other.octagon);
    }

    /// Becomes like the other, which has a point and equally many variables.
    pub fn become_like(&mut self, other: &Ties)
        requires same { self.old.variables ≡ other.now.variables }
        requires some { HasPoint other.now }
        ensures variables { self.new.variables ≡ self.old.variables }
        ensures points { (x : ℕ → ℤ) → Holds self.new x ↔ Holds other.now x }
    {
        if self.count > 0 {
            empty_out(&mut self.octagon, 0);
        }
        self.octagon.join_with(&other.octagon);
    }

    /// Whether each point is one of the other, which has equally many variables.
    pub fn within(&self, other: &Ties) -> bool
        requires { self.now.variables ≡ other.now.variables }
        ensures inclusion { IsTrue result ↔ ((x : ℕ → ℤ) → Holds self.now x → Holds other.now x) }
    {
        self.octagon.within(&other.octagon)
    }

    /// The same once more. `NoMemory`: memory ran out.
    pub fn copy(&self, alloc: Global) -> Result<Ties, NoMemory>
        ensures same { IfOk result (λ t. t ≡ self.now) }
    {
        let octagon = self.octagon.copy(alloc)?;
        Ok(Ties {
            octagon,
            count: self.count,
        })
    }

    /// Whose variable k is the variable `keep[k]`, or any number of `ranges[k]` where that is None. Both lists have one length
    /// of at most 32, and the ranges 32 bits. `NoMemory`: memory ran out.
    pub fn project(
        &self,
        alloc: Global,
        keep: &[Option<usize>],
        ranges: &[Interval],
    ) -> Result<Ties, NoMemory>
        requires few { length keep.now ≤ 32 }
        requires long { length ranges.now ≡ length keep.now }
        requires named { All (λ p. IfSome p (λ v. v < self.now.variables)) keep.now }
        requires narrow { All IsNarrow ranges.now }
        ensures variables { IfOk result (λ t. t.variables ≡ length keep.now) }
        ensures least { IfOk result (λ t. IsLeast t (ProjectedOf self.now keep.now ranges.now)) }
    {
        let octagon = self.octagon.project(alloc, keep, ranges)?;
        Ok(Ties {
            octagon,
            count: keep.len(),
        })
    }
}

// takes every point away, by a bound that none meets
fn empty_out(octagon: &mut Octagon, v: usize)
    requires inside { v < octagon.old.variables }
    ensures variables { octagon.new.variables ≡ octagon.old.variables }
    ensures none { (x : ℕ → ℤ) → Holds octagon.new x → ⊥ }
{
    let plus = Side {
        variable: v,
        negative: false,
    };
    let minus = Side {
        variable: v,
        negative: true,
    };
    octagon.add_bound(plus, minus, -1);
}

// sets variable `v` to the term and a number of `d`, of at most 2^34 in size
fn set_beside(octagon: &mut Octagon, v: usize, t: Term, d: Interval)
    requires inside { v < octagon.old.variables }
    requires from { t.variable < octagon.old.variables }
    requires near { SizesBelow (2 ^ 35) d }
    requires words { IsNarrowly octagon.old }
    ensures variables { octagon.new.variables ≡ octagon.old.variables }
    ensures points { (x : ℕ → ℤ) → Holds octagon.new x ↔ Beside octagon.old v t d x }
{
    let w = t.variable as usize;
    if t.negative {
        add_to(octagon, v, w, Interval::new(0, 0).sub(d));
        negate(octagon, v);
    } else {
        add_to(octagon, v, w, d);
    }
}

// sets variable `v` to variable `w` and a number of `d`, of at most 2^34 in size
fn add_to(octagon: &mut Octagon, v: usize, w: usize, d: Interval)
    requires inside { v < octagon.old.variables }
    requires from { w < octagon.old.variables }
    requires near { SizesBelow (2 ^ 35) d }
    requires words { IsNarrowly octagon.old }
    ensures variables { octagon.new.variables ≡ octagon.old.variables }
    ensures points { (x : ℕ → ℤ) → Holds octagon.new x ↔ AssignedOf octagon.old v (2 * w) d.low d.high x }
    ensures sized { (x : ℕ → ℤ) → Holds octagon.new x → Within (negsuc 68719476735) (pos 68719476736) (x v) }
{
    let _tight = octagon.is_empty();
    octagon.assign_difference(v, w, d);
}

// turns variable `v` to its negative
fn negate(octagon: &mut Octagon, v: usize)
    requires inside { v < octagon.old.variables }
    requires sized { (x : ℕ → ℤ) → Holds octagon.old x → Within (negsuc 68719476735) (pos 68719476736) (x v) }
    ensures variables { octagon.new.variables ≡ octagon.old.variables }
    ensures points { (x : ℕ → ℤ) → Holds octagon.new x ↔ AssignedOf octagon.old v (2 * v + 1) (pos 0) (pos 0) x }
{
    octagon.shift(v, true, 0);
}

// the side of the octagon that the term is, and the opposite one
fn side(t: Term) -> Side
    ensures variable { result.variable ≡ t.variable }
    ensures value { (x : ℕ → ℤ) → signed x result ≡ term_value x t }
{
    Side {
        variable: t.variable as usize,
        negative: t.negative,
    }
}

fn against(t: Term) -> Side
    ensures variable { result.variable ≡ t.variable }
    ensures value { (x : ℕ → ℤ) → signed x result ≡ neg_ℤ (term_value x t) }
{
    Side {
        variable: t.variable as usize,
        negative: !t.negative,
    }
}

// the number, or the nearest one of at most 2^33 in size: a number of at most 2^32 in size lies on the same side of both
fn clamped(z: i64) -> i64
    ensures below { (y : ℤ) → Within (negsuc 4294967295) (pos 4294967296) y → (y ≤ℤ result) ↔ (y ≤ℤ z) }
    ensures above { (y : ℤ) → Within (negsuc 4294967295) (pos 4294967296) y → (result ≤ℤ y) ↔ (z ≤ℤ y) }
    ensures size { Within (negsuc 8589934591) (pos 8589934592) result }
{
    if z > 8589934592 {
        return 8589934592;
    }
    if z < -8589934592 {
        return -8589934592;
    }
    z
}

// the negative of that number
fn clamped_back(z: i64) -> i64
    ensures above { (y : ℤ) → Within (negsuc 4294967295) (pos 4294967296) y → (neg_ℤ y ≤ℤ result) ↔ (z ≤ℤ y) }
    ensures size { Within (negsuc 8589934591) (pos 8589934592) result }
{
    -clamped(z)
}
