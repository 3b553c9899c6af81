//! The half table: the bounds between the sides of some variables, one of each pair that says the same.

ghost use Rattle.std.specs.Prelude.{◌≡◌, ◌≢◌, ◌↔◌, ℕ, ◌+◌, ◌*◌, ◌^◌, ◌<◌, ◌≤◌, ℤ, pos, ◌+ℤ◌, ◌≤ℤ◌, unsigned_abs, IsTrue, IfOk, All, length, replicate};
ghost use Rattle.std.specs.Bool.{MatchBool, OnTrue};
ghost use Rattle.wm_octagon.specs.Layout.{opposite, row_len, entry, bound, table, IsBeside};
ghost use Rattle.wm_octagon.specs.Closing.{half_of, top, list_with};
ghost use Rattle.wm_octagon.specs.Points.{IsPoint, IsTight, LeastOctagon, WithBound};
ghost use Rattle.wm_octagon.specs.HalfTable.{IsSmall, IsWhole};
ghost use Rattle.wm_octagon.specs.Joining.{greater_of, IsBelow};
ghost use Rattle.wm_octagon.specs.Medium.{Filled};
ghost use Rattle.wm_octagon.specs.Ranges.{IsNarrow, InRanges, range_top, box_table};

use crate::changes::Boxing;
use crate::closing::{plus, take_in};
use crate::layout::{Change, MOST_SIDES, change_all, opposite, place, row_start};
use crate::pairs::{all_below, raise_all};
use std::alloc::Global;
use std::marker::Model;
use wm_interval::Interval;
use wm_ops::NoMemory;

/// The bounds between the sides of some variables. Side `2v` is the variable `v`, and side `2v + 1` is `-v`.
/// For `j <= i`, and for `j = i + 1` with `i` even, the entry at row `i` and column `j` bounds the value of side `j` less
/// that of side `i` from above; it stands in the list at `j + (i + 1) * (i + 1) / 2`, and n variables have `2n(n + 1)` entries.
#[derive(Drop)]
pub struct Half {
    variables: usize,
    bounds: Vec<i64>,
}

impl Model for Half {
    ghost use Rattle.wm_octagon.specs.HalfTable.{HalfTable, IsWhole};

    ghost Value = { HalfTable };

    ghost view = { λ h. record { variables = h.variables; bounds = h.bounds.items } };

    ghost invariant = { λ h. IsWhole h.variables h.bounds.items };
}

impl Half {
    /// Each variable has any number of its range. There are at most 32 ranges, whose ends have 32 bits. `NoMemory`: memory
    /// ran out.
    pub fn new(alloc: Global, ranges: &[Interval]) -> Result<Half, NoMemory>
        requires few { length ranges.now ≤ 32 }
        requires narrow { All IsNarrow ranges.now }
        ensures list { IfOk result (λ h. h ≡ box_table ranges.now) }
        ensures least { IfOk result (λ h. LeastOctagon h.variables (InRanges ranges.now) h.bounds) }
        ensures points { IfOk result (λ h. (x : ℕ → ℤ) → IsPoint h.variables h.bounds x ↔ InRanges ranges.now x) }
        ensures tight { IfOk result (λ h. IsTight h.variables h.bounds) }
    {
        let change = Boxing {
            tops: range_tops(ranges),
        };
        let mut half = Half::zero(alloc, ranges.len())?;
        half.change(&change);
        Ok(half)
    }

    /// The same half table once more.
    pub(crate) fn copy(&self, alloc: Global) -> Result<Half, NoMemory>
        ensures { IfOk result (λ h. h ≡ self.now) }
    {
        let bounds = Vec::from_slice(alloc, self.bounds.as_slice())?;
        Ok(Half {
            variables: self.variables,
            bounds,
        })
    }

    /// Takes over the bounds of another of as many variables.
    pub(crate) fn become_like(&mut self, other: &Half)
        requires { self.old.variables ≡ other.now.variables }
        ensures { self.new ≡ other.now }
    {
        let _ = &other.variables;
        self.bounds
            .as_mut_slice()
            .copy_from_slice(other.bounds.as_slice());
    }

    /// Keeps the greater of each two bounds of two half tables of as many variables.
    pub(crate) fn raise(&mut self, other: &Half)
        requires { self.old.variables ≡ other.now.variables }
        ensures value { self.new ≡ record self.old { bounds = greater_of self.old.bounds other.now.bounds } }
        ensures whole { IsWhole self.old.variables self.old.bounds }
    {
        let _ = &other.variables;
        raise_all(self.bounds.as_mut_slice(), other.bounds.as_slice());
    }

    /// Whether each bound is at most that of another half table of as many variables.
    pub(crate) fn is_below(&self, other: &Half) -> bool
        requires { self.now.variables ≡ other.now.variables }
        ensures value { IsTrue result ↔ IsBelow self.now.bounds other.now.bounds }
        ensures whole { IsWhole self.now.variables self.now.bounds }
    {
        let _ = &other.variables;
        all_below(self.bounds.as_slice(), other.bounds.as_slice())
    }

    /// So many variables, at most 32, and each entry 0. `NoMemory`: memory ran out.
    pub(crate) fn zero(alloc: Global, variables: usize) -> Result<Half, NoMemory>
        requires { variables ≤ 32 }
        ensures { IfOk result (λ h. h.variables ≡ variables) }
    {
        let bounds = vec![in alloc; 0; row_start(2 * variables)]?;
        Ok(Half { variables, bounds })
    }

    /// The entry at row `i` and column `j`, which exists.
    pub fn entry(&self, i: usize, j: usize) -> i64
        requires row { i < 2 * self.now.variables }
        requires column { j < row_len i }
        ensures value { result ≡ entry self.now.bounds i j }
    {
        self.bound(i, j)
    }

    /// The bound of side `l` less side `k`, of any two sides.
    #[inline(always)]
    pub(crate) fn bound(&self, k: usize, l: usize) -> i64
        requires row { k < 2 * self.now.variables }
        requires column { l < 2 * self.now.variables }
        ensures value { result ≡ bound self.now.bounds k l }
        ensures small { IsSmall result }
    {
        let bounds = self.bounds.as_slice();
        bounds[place(k, l)]
    }

    /// How many sides there are: two for each variable.
    #[inline(always)]
    pub(crate) fn sides(&self) -> usize
        ensures value { result ≡ 2 * self.now.variables }
        ensures few { result ≤ 64 }
    {
        2 * self.variables
    }

    /// The bounds of all sides less side `k`.
    #[inline(always)]
    pub(crate) fn row(&self, k: usize) -> [i64; MOST_SIDES]
        requires { k < 2 * self.now.variables }
        ensures value { Filled IsSmall (bound self.now.bounds k) (2 * self.now.variables) result }
    {
        let mut row = [0; MOST_SIDES];
        self.fill_row(k, &mut row);
        row
    }

    /// Puts the bounds of all sides less side `k` into a row of zeros.
    #[inline(always)]
    pub(crate) fn fill_row(&self, k: usize, row: &mut [i64; MOST_SIDES])
        requires inside { k < 2 * self.now.variables }
        requires clear { row.old ≡ replicate 64 (pos 0) }
        ensures value { Filled IsSmall (bound self.now.bounds k) (2 * self.now.variables) row.new }
    {
        let sides = self.sides();
        for l in 0..sides {
            row[l] = self.bound(k, l);
        }
    }

    /// The greatest whole value that its own bound leaves each side.
    #[inline(always)]
    pub(crate) fn tops(&self) -> [i64; MOST_SIDES]
        ensures value { Filled IsSmall (top (bound self.now.bounds)) (2 * self.now.variables) result }
    {
        let sides = self.sides();
        let mut tops = [0; MOST_SIDES];
        for k in 0..sides {
            tops[k] = halved(self.bound(opposite(k), k));
        }
        tops
    }

    /// Changes the bounds.
    #[inline(always)]
    pub(crate) fn change<C: Change>(&mut self, change: &C)
        requires known { 2 * self.old.variables ≤ C.sides change.now }
        requires sized { (k l : ℕ) → k < 2 * self.old.variables → l < row_len k → IsSmall (C.value change.now k l (entry self.old.bounds k l)) }
        requires beside { IsBeside (2 * self.old.variables) (C.value change.now) (C.begin change.now) (C.columns change.now) self.old.bounds }
        ensures { self.new ≡ record self.old { bounds = table (2 * self.old.variables) (λ k l. C.value change.now k l (entry self.old.bounds k l)) } }
    {
        change_all(change, self.variables, self.bounds.as_mut_slice());
    }

    /// Keeps the points at which side `j` less side `i` is at most `c`, where the entry at row `i` and column `j` exists and
    /// is none of the diagonal, the list is tight, and `c` is below 2^42 in size. False exactly where no point of the list
    /// is left; then the list is as it was.
    pub fn close_one(&mut self, i: usize, j: usize, c: i64) -> bool
        requires tight { IsTight self.old.variables self.old.bounds }
        requires row { i < 2 * self.old.variables }
        requires column { j < row_len i }
        requires apart { i ≢ j }
        requires size { unsigned_abs c < 2 ^ 42 }
        ensures answer { IsTrue result ↔ (pos 0 ≤ℤ (c +ℤ bound self.old.bounds j i)) }
        ensures list { MatchBool result (self.new ≡ record self.old { bounds = list_with self.old.variables self.old.bounds i j c }) (self.new ≡ self.old) }

        // what is left is the least octagon of the points that meet the bound, or there is no such point
        ensures least { MatchBool result (LeastOctagon self.old.variables (WithBound self.old.variables self.old.bounds i j c) self.new.bounds) ((x : ℕ → ℤ) → WithBound self.old.variables self.old.bounds i j c x → ⊥) }
        ensures points { OnTrue result ((x : ℕ → ℤ) → IsPoint self.new.variables self.new.bounds x ↔ WithBound self.old.variables self.old.bounds i j c x) }
        ensures tight { OnTrue result (IsTight self.new.variables self.new.bounds) }
    {
        let _ = &self.variables;
        let room = plus(c, self.bound(j, i));
        if room < 0 {
            return false;
        }
        if c < self.bound(i, j) {
            take_in(self, i, j, c);
        }
        true
    }
}

/// The greatest value of each side, where each variable has any number of its range.
fn range_tops(ranges: &[Interval]) -> [i64; MOST_SIDES]
    requires few { length ranges.now ≤ 32 }
    requires narrow { All IsNarrow ranges.now }
    ensures value { Filled IsSmall (range_top ranges.now) (2 * length ranges.now) result }
{
    let mut tops = [0; MOST_SIDES];
    for (v, r) in ranges.iter().enumerate() {
        tops[2 * v] = r.high;
        tops[2 * v + 1] = -r.low;
    }
    tops
}

/// Half of `z`, rounded down.
#[inline(always)]
#[tactic(auto, using(crate::proofs::Small::half_small), unfolding(crate::specs::Closing::half_of))]
pub(crate) fn halved(z: i64) -> i64
    ensures value { result ≡ half_of z }
{
    z.div_euclid(2)
}
