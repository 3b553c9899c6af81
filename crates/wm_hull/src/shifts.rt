//! Ranges of shifts. A number that is not negative rises with the count of a shift to the left, and a negative one
//! falls; so each end of the range stands at one end of the counts.

ghost use Rattle.std.specs.Prelude.{◌≡◌, pos};
ghost use Rattle.wm_interval.specs.declared.Interval as intervals;
ghost use Rattle.wm_ops.specs.Arguments.{ArgsFit};
ghost use Rattle.wm_ops.specs.Outcomes.{value_of};
ghost use Rattle.wm_hull.specs.Boxes.{BoxesFit, zero_box};
ghost use Rattle.wm_hull.specs.Ranges.{IsRangeOf, IsCountFor, IsLeftShift, IsRightShift};

use crate::parts::value;
use wm_interval::Interval;
use wm_ops::Op;

/// The count for a number: one for those that are not negative, another for the negative ones.
fn count_for(a: i64, natural: i64, negative: i64) -> i64
    ensures { IsCountFor a natural negative result }
{
    if a >= 0 { natural } else { negative }
}

fn left(op: Op, a: i64, n: i64) -> i64
    requires shift { IsLeftShift op }
    requires types { ArgsFit op a n (pos 0) }
    ensures { result ≡ value_of op a n (pos 0) }
{
    value(op, a, n)
}

fn right(op: Op, a: i64, n: i64) -> i64
    requires shift { IsRightShift op }
    requires types { ArgsFit op a n (pos 0) }
    ensures { result ≡ value_of op a n (pos 0) }
{
    value(op, a, n)
}

/// The range of a shift to the left.
pub(crate) fn lefts(op: Op, x: Interval, counts: Interval) -> Interval
    requires shift { IsLeftShift op }
    requires types { BoxesFit op x counts zero_box }
    ensures { (z : intervals.Interval) → IsRangeOf (value_of op) x counts z result }
{
    let low_count = count_for(x.low, counts.low, counts.high);
    let high_count = count_for(x.high, counts.high, counts.low);
    let low = left(op, x.low, low_count);
    let high = left(op, x.high, high_count);
    Interval::new(low, high)
}

/// The range of a shift to the right.
pub(crate) fn rights(op: Op, x: Interval, counts: Interval) -> Interval
    requires shift { IsRightShift op }
    requires types { BoxesFit op x counts zero_box }
    ensures { (z : intervals.Interval) → IsRangeOf (value_of op) x counts z result }
{
    let low_count = count_for(x.low, counts.high, counts.low);
    let high_count = count_for(x.high, counts.low, counts.high);
    let low = right(op, x.low, low_count);
    let high = right(op, x.high, high_count);
    Interval::new(low, high)
}
