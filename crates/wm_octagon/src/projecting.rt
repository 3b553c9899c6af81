//! Picked variables of an octagon, beside others that have any number of a range.

ghost use Rattle.std.specs.Prelude.{◌≡◌, ℕ, ◌*◌, ◌/◌, ◌<◌, ◌≤◌, length, All, IfSome, Some, true};
ghost use Rattle.std.proofs.Props.{props};
ghost use Rattle.wm_octagon.specs.Layout.{bound, row_len};
ghost use Rattle.wm_octagon.specs.Changes.{apart};
ghost use Rattle.wm_octagon.specs.HalfTable.{IsSmall};
ghost use Rattle.wm_octagon.specs.Medium.{Filled};
ghost use Rattle.wm_octagon.specs.Projecting.{side_by, source, top_by, drawn_top, projected, ArePicked, IsOwn};
ghost use Rattle.wm_octagon.specs.Ranges.{IsNarrow, end_of};
ghost use Rattle.wm_octagon.specs.Ways.{at, AllSmall};

use crate::closing::plus;
use crate::half::Half;
use crate::layout::{Change, MOST_SIDES, opposite, row_len};
use wm_interval::Interval;

/// Each variable is the picked one of an older octagon; where none is picked, the greatest values of its sides are all that
/// is known of it.
#[derive(Drop)]
pub(crate) struct Projecting<'p> {
    pub(crate) half: &'p Half,
    pub(crate) keep: &'p [Option<usize>],
    pub(crate) tops: [i64; MOST_SIDES],
    ghost few: { length keep.now ≤ 32 },
    ghost low: { half.now.variables ≤ 32 },
    ghost named: { All (λ p. IfSome p (λ v. v < half.now.variables)) keep.now } by { Prim.hlevel props },
    ghost sized: { AllSmall tops },
}

impl Change for Projecting<'_> {
    ghost sides = { λ s. 2 * length s.keep.now };

    ghost value = { λ s k l b. projected s.keep.now (at s.tops) (bound s.half.now.bounds) k l };

    ghost begin = { λ _ _. 0 };

    ghost columns = { λ _ k. row_len k };

    #[inline(always)]
    fn changed(&self, k: usize, l: usize, _bound: i64) -> i64 {
        match self.source(k) {
            None => self.apart(k, l),
            Some(i) => match self.source(l) {
                None => self.apart(k, l),
                Some(j) => self.half.bound(i, j),
            },
        }
    }

    #[inline(always)]
    fn first_column(&self, _k: usize) -> usize {
        0
    }

    #[inline(always)]
    fn column_count(&self, k: usize) -> usize {
        row_len(k)
    }
}

impl Projecting<'_> {
    // the old side that side `k` is
    #[inline(always)]
    fn source(&self, k: usize) -> Option<usize>
        requires { k < 2 * length self.now.keep.now }
        ensures value { result ≡ source self.now.keep.now k }
        ensures inside { IfSome result (λ i. i < 2 * self.now.half.now.variables) }
    {
        match self.keep[k / 2] {
            None => None,
            Some(v) => Some(2 * v + k % 2),
        }
    }

    // the bound of two sides that are known apart from each other alone
    #[inline(always)]
    fn apart(&self, k: usize, l: usize) -> i64
        requires row { k < 2 * length self.now.keep.now }
        requires column { l < 2 * length self.now.keep.now }
        ensures value { result ≡ apart (at self.now.tops) k l }
    {
        if k == l {
            return 0;
        }
        plus(self.tops[opposite(k)], self.tops[l])
    }
}

// whether a place picks the variable of its own number
fn is_here(pick: Option<usize>, place: usize) -> bool
    ensures { result ≡ true → pick ≡ Some place }
{
    match pick {
        None => false,
        Some(v) => v == place,
    }
}

// whether each place picks the variable of its own number
fn are_here(keep: &[Option<usize>]) -> bool
    ensures { result ≡ true → ArePicked keep.now }
{
    for k in 0..keep.len() {
        if !is_here(keep[k], k) {
            return false;
        }
    }
    true
}

/// Whether the places pick all variables of an octagon that has so many sides, each its own.
pub(crate) fn is_own(keep: &[Option<usize>], sides: usize) -> bool
    requires few { length keep.now ≤ 32 }
    ensures { result ≡ true → IsOwn keep.now sides }
{
    if 2 * keep.len() != sides {
        return false;
    }
    are_here(keep)
}

/// The greatest value of each side: that of the picked variable's side in `old`, or the end of its range.
pub(crate) fn drawn_tops(
    old: &[i64; MOST_SIDES],
    keep: &[Option<usize>],
    ranges: &[Interval],
) -> [i64; MOST_SIDES]
    requires few { length keep.now ≤ 32 }
    requires long { length ranges.now ≡ length keep.now }
    requires narrow { All IsNarrow ranges.now }
    requires named { All (λ p. IfSome p (λ v. v < 32)) keep.now }
    requires small { AllSmall old.now }
    ensures value { Filled IsSmall (drawn_top keep.now ranges.now (at old.now)) (2 * length keep.now) result }
{
    let sides = 2 * keep.len();
    let mut tops = [0; MOST_SIDES];
    for k in 0..sides {
        tops[k] = side_top(old, keep[k / 2], ranges[k / 2], k);
    }
    tops
}

// the greatest value of side `k`, whose variable is the picked one or has any number of `range`
fn side_top(old: &[i64; MOST_SIDES], pick: Option<usize>, range: Interval, k: usize) -> i64
    requires named { IfSome pick (λ v. v < 32) }
    requires narrow { IsNarrow range }
    requires small { AllSmall old.now }
    ensures value { result ≡ top_by (side_by pick k) (at old.now) (end_of range k) }
    ensures small { IsSmall result }
{
    match pick {
        Some(v) => old[2 * v + k % 2],
        None => { if k % 2 == 0 { range.high } else { -range.low } }
    }
}
