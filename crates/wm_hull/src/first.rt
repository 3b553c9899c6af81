//! The first arguments at which an operator fails, place after place: each is found by halving its box.

ghost use Rattle.std.specs.Prelude.{◌≡◌, ◌+ℤ◌, ◌-ℤ◌, ◌≤ℤ◌, ◌<ℤ◌};
ghost use Rattle.wm_interval.specs.declared.Interval as intervals;
ghost use Rattle.wm_ops.specs.Outcomes.{fails_of};
ghost use Rattle.wm_hull.specs.Boxes.{BoxesFit};
ghost use Rattle.wm_hull.specs.Failures.{IsWorst, Somewhere};
ghost use Rattle.wm_hull.specs.Ranges.{IsBox32};
ghost use Rattle.wm_hull.specs.Searches.{SearchedFirst, SearchedSecond, SearchedThird};

use crate::failures::fails;
use wm_interval::Interval;
use wm_ops::Op;

/// The first arguments in the boxes at which the operator fails; None where there are none.
pub(crate) fn first_failure(op: Op, x: Interval, y: Interval, z: Interval) -> Option<[i64; 3]>
    requires types { BoxesFit op x y z }
    requires first { IsBox32 x }
    requires second { IsBox32 y }
    requires third { IsBox32 z }
    ensures { IsWorst op x y z result }
{
    if !fails(op, x, y, z) {
        return None;
    }
    let first = search_first(op, x, y, z);
    let second = search_second(op, first, y, z);
    let third = search_third(op, first, second, z);
    Some([first.low, second.low, third.low])
}

/// A number at or above the low end and below the high end, in the middle.
fn middle(range: Interval) -> i64
    requires size { IsBox32 range }
    requires proper { range.low <ℤ range.high }
    ensures low { range.low ≤ℤ result }
    ensures high { result <ℤ range.high }
{
    range.low + (range.high - range.low) / 2
}

/// The half of the first box in which the search goes on: the lower one, where the operator fails in it.
fn half_first(op: Op, left: Interval, y: Interval, z: Interval) -> Interval
    requires types { BoxesFit op left y z }
    requires size { IsBox32 left }
    requires proper { left.low <ℤ left.high }
    ensures keeps { (x : intervals.Interval) → SearchedFirst (fails_of op) x y z left → SearchedFirst (fails_of op) x y z result }
    ensures shorter { (result.high -ℤ result.low) <ℤ (left.high -ℤ left.low) }
{
    let middle = middle(left);
    let lower = Interval::new(left.low, middle);
    if fails(op, lower, y, z) {
        return lower;
    }
    Interval::new(middle + 1, left.high)
}

/// The box of the first arguments of the failures, cut to the least of them.
fn search_first(op: Op, x: Interval, y: Interval, z: Interval) -> Interval
    requires types { BoxesFit op x y z }
    requires size { IsBox32 x }
    requires some { Somewhere (fails_of op) x y z }
    ensures searched { SearchedFirst (fails_of op) x y z result }
    ensures point { result.low ≡ result.high }
{
    let mut left = x;
    while left.low < left.high {
        left = half_first(op, left, y, z);
    }
    left
}

/// The half of the second box in which the search goes on: the lower one, where the operator fails in it.
fn half_second(op: Op, x: Interval, left: Interval, z: Interval) -> Interval
    requires types { BoxesFit op x left z }
    requires size { IsBox32 left }
    requires proper { left.low <ℤ left.high }
    ensures keeps { (y : intervals.Interval) → SearchedSecond (fails_of op) x y z left → SearchedSecond (fails_of op) x y z result }
    ensures shorter { (result.high -ℤ result.low) <ℤ (left.high -ℤ left.low) }
{
    let middle = middle(left);
    let lower = Interval::new(left.low, middle);
    if fails(op, x, lower, z) {
        return lower;
    }
    Interval::new(middle + 1, left.high)
}

/// The box of the second arguments of the failures, cut to the least of them.
fn search_second(op: Op, x: Interval, y: Interval, z: Interval) -> Interval
    requires types { BoxesFit op x y z }
    requires size { IsBox32 y }
    requires some { Somewhere (fails_of op) x y z }
    ensures searched { SearchedSecond (fails_of op) x y z result }
    ensures point { result.low ≡ result.high }
{
    let mut left = y;
    while left.low < left.high {
        left = half_second(op, x, left, z);
    }
    left
}

/// The half of the third box in which the search goes on: the lower one, where the operator fails in it.
fn half_third(op: Op, x: Interval, y: Interval, left: Interval) -> Interval
    requires types { BoxesFit op x y left }
    requires size { IsBox32 left }
    requires proper { left.low <ℤ left.high }
    ensures keeps { (z : intervals.Interval) → SearchedThird (fails_of op) x y z left → SearchedThird (fails_of op) x y z result }
    ensures shorter { (result.high -ℤ result.low) <ℤ (left.high -ℤ left.low) }
{
    let middle = middle(left);
    let lower = Interval::new(left.low, middle);
    if fails(op, x, y, lower) {
        return lower;
    }
    Interval::new(middle + 1, left.high)
}

/// The box of the third arguments of the failures, cut to the least of them.
fn search_third(op: Op, x: Interval, y: Interval, z: Interval) -> Interval
    requires types { BoxesFit op x y z }
    requires size { IsBox32 z }
    requires some { Somewhere (fails_of op) x y z }
    ensures searched { SearchedThird (fails_of op) x y z result }
    ensures point { result.low ≡ result.high }
{
    let mut left = z;
    while left.low < left.high {
        left = half_third(op, x, y, left);
    }
    left
}
