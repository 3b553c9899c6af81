//! Abstract states. A state means a set of points: a number for each variable and, for each array, what one of its cells
//! holds. Each call says which points it keeps, and that its result is the least state that holds them.

ghost use Rattle.std.specs.Prelude.{◌≡◌, ◌↔◌, ℕ, ◌<◌, Bool, IsTrue, IfOk, MatchOption, length};
ghost use Rattle.wm_interval.specs.Holds.{IsHullOf};
ghost use Rattle.wm_arrays.specs.Meaning.{IsLeastFor};
ghost use Rattle.wm_domain.specs.Points.{Point, Alike, range_at};
ghost use Rattle.wm_domain.specs.Forms.{IsForm, IsSimple, AreBounded};
ghost use Rattle.wm_domain.specs.States.{count_of, array_count, IsShape, InShape, IsSized, Keeps, IsLeast, IsBare, IsTold};
ghost use Rattle.wm_domain.specs.Bounds.{Bound, IsBound, IsCutBy, MeetsAll};
ghost use Rattle.wm_domain.specs.Places.{ArePaired, Followed};
ghost use Rattle.wm_domain.specs.Changes.{IsUnset, Projected, ArePicks, Kept, Freed, Assigned, Near, ArraySet, Written, InEither, IsValueOf, IsFormValue, IsCellOf};

use crate::{Form, Relation, Shape};
use std::alloc::Global;
use wm_arrays::Summary;
use wm_interval::Interval;
use wm_ops::NoMemory;

/// A state of a shape. A set of points may have no state of its own; then the least state that holds them stands for them.
/// Variables and arrays that are named lie in the shape; a group has at most 32 variables; full ranges have 32 bits;
/// numbers are below 2^50 in size; and two states of one call have one shape. A point at which a variable gets a number
/// outside its full range is dropped. Only `full`, `copy`, `project` and `follow` take memory.
pub trait Domain: Sized + Drop {
    ghost use Rattle.wm_domain.specs.declared.shape.Shape.{Shape};

    /// Whether a state keeps bounds on the sums and differences of two variables of the group.
    const PAIRS: bool;

    ghost PAIRS: { Bool };

    // the point is one of the state
    ghost holds: { Self → Point → Type 0 };

    ghost shape_of: { Self → Shape };

    /// Each variable has any number of its full range, and no cell is set.
    fn full(alloc: Global, shape: &Shape) -> Result<Self, NoMemory>
        requires shape { IsShape shape.now }
        ensures shape { IfOk result (λ s. shape_of s ≡ shape.now) }
        ensures sound { IfOk result (λ s. Keeps holds shape_of s (IsUnset shape.now)) }
        ensures least { IfOk result (λ s. IsLeast holds shape_of s (IsUnset shape.now)) }
        ensures unset { IfOk result (λ s. (p : Point) → holds s p → IsUnset shape.now p) };

    /// The same state once more: its points are the same.
    fn copy(&self, alloc: Global) -> Result<Self, NoMemory>
        ensures shape { IfOk result (λ s. shape_of s ≡ shape_of self.now) }
        ensures same { IfOk result (λ s. (p : Point) → holds s p ↔ holds self.now p) };

    /// The state of another shape whose variable k is the variable `picks[k]`, or has any number of its full range where
    /// that is None, and whose array k is the array `arrays[k]`, or has no set cell where that is None. No variable and no
    /// array is picked twice.
    fn project(
        &self,
        alloc: Global,
        shape: &Shape,
        picks: &[Option<u32>],
        arrays: &[Option<u32>],
    ) -> Result<Self, NoMemory>
        requires shape { IsShape shape.now }
        requires long { length picks.now ≡ count_of shape.now }
        requires arrays_long { length arrays.now ≡ array_count shape.now }
        requires picks { ArePicks (count_of (shape_of self.now)) picks.now }
        requires array_picks { ArePicks (array_count (shape_of self.now)) arrays.now }
        ensures shape { IfOk result (λ s. shape_of s ≡ shape.now) }
        ensures sound { IfOk result (λ s. Keeps holds shape_of s (Projected (holds self.now) picks.now arrays.now)) }
        ensures least { IfOk result (λ s. IsLeast holds shape_of s (Projected (holds self.now) picks.now arrays.now)) };

    /// The state of another shape: group, singles and arrays are paired each by place with those of this one, and what is
    /// paired has one full range. What only this one has is dropped; what only the other has is as in `full`.
    fn follow(&self, alloc: Global, shape: &Shape) -> Result<Self, NoMemory>
        requires shape { IsShape shape.now }
        requires paired { ArePaired (shape_of self.now) shape.now }
        ensures shape { IfOk result (λ s. shape_of s ≡ shape.now) }
        ensures sound { IfOk result (λ s. Keeps holds shape_of s (Followed (shape_of self.now) shape.now (holds self.now))) }
        ensures least { IfOk result (λ s. IsLeast holds shape_of s (Followed (shape_of self.now) shape.now (holds self.now))) };

    /// Takes every point away.
    fn clear(&mut self)
        ensures shape { shape_of self.new ≡ shape_of self.old }
        ensures least { IsBare (holds self.new) };

    /// Whether there is no point.
    fn is_empty(&self) -> bool
        ensures points { IsTrue result ↔ IsBare (holds self.now) };

    /// The least and the greatest number of variable `v`; None exactly where there is no point.
    fn range(&self, v: u32) -> Option<Interval>
        requires inside { v < count_of (shape_of self.now) }
        ensures exact { MatchOption result (IsBare (holds self.now)) (λ r. IsHullOf (IsValueOf (holds self.now) v) r) };

    /// The least and the greatest value of the form; None exactly where there is no point.
    fn form(&self, f: &Form) -> Option<Interval>
        requires form { IsForm (count_of (shape_of self.now)) f.now }
        ensures exact { MatchOption result (IsBare (holds self.now)) (λ r. IsHullOf (IsFormValue (holds self.now) f.now) r) };

    /// Keeps the points at which the form is at most 0, or is 0. For `NotEqual` the points at which it is 0 go only where 0
    /// is its least or its greatest value.
    fn keep(&mut self, f: &Form, r: Relation)
        requires form { IsForm (count_of (shape_of self.old)) f.now }
        ensures shape { shape_of self.new ≡ shape_of self.old }
        ensures sound { Keeps holds shape_of self.new (Kept (holds self.old) f.now r) }
        ensures least { IsLeast holds shape_of self.new (Kept (holds self.old) f.now r) }
        ensures fewer { (p : Point) → holds self.new p → holds self.old p }

        // exactly the points that were wanted, where the form is one whose bounds are kept as they are
        ensures made { AreBounded PAIRS (length (shape_of self.old).group) f.now.terms → (p : Point) → holds self.new p → Kept (holds self.old) f.now r p };

    /// Sets variable `v` to the value of the form, which has at most one term.
    fn assign_form(&mut self, v: u32, f: &Form)
        requires inside { v < count_of (shape_of self.old) }
        requires form { IsForm (count_of (shape_of self.old)) f.now }
        requires simple { IsSimple f.now.terms }
        ensures shape { shape_of self.new ≡ shape_of self.old }
        ensures sound { Keeps holds shape_of self.new (Assigned (holds self.old) v f.now) }
        ensures least { IsLeast holds shape_of self.new (Assigned (holds self.old) v f.now) };

    /// Sets variable `v` to any number of `r` that differs from variable `w` by a number of `d`. Both may be one variable.
    fn assign_near(&mut self, v: u32, w: u32, d: Interval, r: Interval)
        requires inside { v < count_of (shape_of self.old) }
        requires from { w < count_of (shape_of self.old) }
        requires difference { IsSized d }
        requires range { IsSized r }
        ensures shape { shape_of self.new ≡ shape_of self.old }
        ensures sound { Keeps holds shape_of self.new (Near (holds self.old) v w d r) }
        ensures least { IsLeast holds shape_of self.new (Near (holds self.old) v w d r) };

    /// Sets variable `v` to any number of `r`.
    fn assign_range(&mut self, v: u32, r: Interval)
        requires inside { v < count_of (shape_of self.old) }
        requires range { IsSized r }
        ensures shape { shape_of self.new ≡ shape_of self.old }
        ensures sound { Keeps holds shape_of self.new (Freed (holds self.old) v r) }
        ensures least { IsLeast holds shape_of self.new (Freed (holds self.old) v r) };

    /// What the set cells of array `a` hold; None exactly where there is no point.
    fn array(&self, a: u32) -> Option<Summary>
        requires inside { a < array_count (shape_of self.now) }
        ensures exact { MatchOption result (IsBare (holds self.now)) (λ s. IsLeastFor (IsCellOf (holds self.now) a) s) };

    /// Replaces what the cells of array `a` hold.
    fn set_array(&mut self, a: u32, s: Summary)
        requires inside { a < array_count (shape_of self.old) }
        ensures shape { shape_of self.new ≡ shape_of self.old }
        ensures sound { Keeps holds shape_of self.new (ArraySet (holds self.old) a s) }
        ensures least { IsLeast holds shape_of self.new (ArraySet (holds self.old) a s) }
        ensures made { (p : Point) → holds self.new p → ArraySet (holds self.old) a s p };

    /// Writes a number of `r` to some cell of array `a`, which has `length` cells.
    fn write(&mut self, a: u32, r: Interval, length: u32)
        requires inside { a < array_count (shape_of self.old) }
        ensures shape { shape_of self.new ≡ shape_of self.old }
        ensures sound { Keeps holds shape_of self.new (Written (holds self.old) (range_at (shape_of self.old).arrays a) a r length) }
        ensures least { IsLeast holds shape_of self.new (Written (holds self.old) (range_at (shape_of self.old).arrays a) a r length) };

    /// Becomes the least state that holds the points of both.
    fn join_with(&mut self, other: &Self)
        requires shape { shape_of self.old ≡ shape_of other.now }
        ensures shape { shape_of self.new ≡ shape_of self.old }
        ensures sound { Keeps holds shape_of self.new (InEither (holds self.old) (holds other.now)) }
        ensures least { IsLeast holds shape_of self.new (InEither (holds self.old) (holds other.now)) };

    /// Whether each point is one of the other.
    fn within(&self, other: &Self) -> bool
        requires shape { shape_of self.now ≡ shape_of other.now }
        ensures inclusion { IsTrue result ↔ ((p : Point) → holds self.now p → holds other.now p) };

    // each point lies in the full ranges
    ghost inside: { (s : Self) (p : Point) → holds s p → InShape (shape_of s) p };

    // only the numbers at variables and the cells at arrays of the shape tell points apart
    ghost alike: { (s : Self) (p q : Point) → Alike (count_of (shape_of s)) (array_count (shape_of s)) p q → holds s p → holds s q };

    // a state with a point holds all that its ranges, its forms and its summaries allow
    ghost told: { (s : Self) (p : Point) → IsTold PAIRS (shape_of s) (holds s) p → holds s p };

    // a state holds each point that meets all bounds that its points meet
    ghost closed: { (s : Self) (p : Point) → MeetsAll PAIRS (shape_of s) (holds s) p → holds s p };

    // a state with a point that is cut by one more bound is a state
    ghost cuts: { (s : Self) (p : Point) → holds s p → (b : Bound) → IsBound PAIRS (shape_of s) b → IsCutBy holds shape_of s b };
}
