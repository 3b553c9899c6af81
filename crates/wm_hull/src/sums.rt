//! Ranges of sizes, and of the greater and the lesser of two numbers.

ghost use Rattle.std.specs.Prelude.{◌≡◌, ◌^◌, pos, unsigned_abs};
ghost use Rattle.std.specs.Int.{int_max, int_min};
ghost use Rattle.wm_interval.specs.Holds.{SizesBelow};
ghost use Rattle.wm_interval.specs.declared.Interval as intervals;
ghost use Rattle.wm_hull.specs.Ranges.{IsRangeOf};

use crate::ranges::negated;
use wm_interval::Interval;

/// The range of the sizes of the numbers.
pub(crate) fn sizes(x: Interval) -> Interval
    requires { SizesBelow (2 ^ 62) x }
    ensures { (y z : intervals.Interval) → IsRangeOf (λ a b c. pos (unsigned_abs a)) x y z result }
{
    if x.low >= 0 {
        return x;
    }
    if x.high <= 0 {
        return negated(x);
    }
    Interval::new(0, larger(x.high, -x.low))
}

/// The range of the greater of two numbers.
#[tactic(auto, using(std::proofs::lemmas::Int::ints, std::proofs::lemmas::Int::clamps))]
pub(crate) fn greater(x: Interval, y: Interval) -> Interval
    ensures low { result.low ≡ int_max x.low y.low }
    ensures high { result.high ≡ int_max x.high y.high }
{
    Interval::new(larger(x.low, y.low), larger(x.high, y.high))
}

/// The range of the lesser of two numbers.
#[tactic(auto, using(std::proofs::lemmas::Int::ints, std::proofs::lemmas::Int::clamps))]
pub(crate) fn lesser(x: Interval, y: Interval) -> Interval
    ensures low { result.low ≡ int_min x.low y.low }
    ensures high { result.high ≡ int_min x.high y.high }
{
    Interval::new(smaller(x.low, y.low), smaller(x.high, y.high))
}

/// The larger of two numbers.
pub(crate) fn larger(a: i64, b: i64) -> i64
    ensures { result ≡ int_max a b }
{
    if a < b { b } else { a }
}

/// The smaller of two numbers.
pub(crate) fn smaller(a: i64, b: i64) -> i64
    ensures { result ≡ int_min a b }
{
    if a < b { a } else { b }
}
