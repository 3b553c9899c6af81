//! Ranges of quotients of two fractions.

ghost use Rattle.std.specs.Prelude.{◌≡◌, ◌⊎◌, pos, IsTrue, MatchBool, ◌≤ℤ◌, ◌<ℤ◌};
ghost use Rattle.std.specs.Int.{int_max};
ghost use Rattle.wm_interval.specs.Holds.{IsHullOf};
ghost use Rattle.wm_interval.specs.declared.Interval as intervals;
ghost use Rattle.wm_numbers.specs.Within.{IsWord16};
ghost use Rattle.wm_ops.specs.Division as divisions;
ghost use Rattle.wm_hull.specs.Ranges.{IsBox16, IsHull, Result};

use crate::parts::value;
use crate::sums::larger;
use wm_interval::Interval;
use wm_numbers::MAX_16;
use wm_ops::Op;

/// The quotient of two fractions of the domain.
#[tactic(auto, unfolding(wm_ops::specs::Outcomes::formula_of, wm_ops::specs::Outcomes::in_domain))]
fn quotient(a: i64, b: i64) -> i64
    requires first { IsWord16 a }
    requires second { IsWord16 b }
    requires domain { IsTrue (divisions.is_quotient a b) }
    ensures { result ≡ divisions.quotient a b }
{
    value(Op::DivS, a, b)
}

/// Whether no pair of the two boxes is in the domain, where `least` is the least dividend that is not negative.
fn no_pair(x: Interval, y: Interval, least: i64) -> bool
    ensures { MatchBool result ((x.high <ℤ pos 0) ⊎ ((y.high <ℤ pos 1) ⊎ (y.high <ℤ least))) ((pos 0 ≤ℤ x.high) × (pos 1 ≤ℤ y.high) × (least ≤ℤ y.high)) }
{
    x.high < 0 || y.high < 1 || y.high < least
}

/// The range of the quotients, where some pair is in the domain.
fn quotients(x: Interval, y: Interval, least: i64) -> Interval
    requires first { IsBox16 x }
    requires second { IsBox16 y }
    requires least { least ≡ int_max x.low (pos 0) }
    requires natural { pos 0 ≤ℤ x.high }
    requires positive { pos 1 ≤ℤ y.high }
    requires meets { least ≤ℤ y.high }
    ensures { (z : intervals.Interval) → IsHullOf (Result Op.DivS x y z) result }
{
    let divisor = larger(y.low, 1);
    let low = quotient(least, y.high);
    if divisor <= x.high {
        return Interval::new(low, MAX_16);
    }
    let high = quotient(x.high, divisor);
    Interval::new(low, high)
}

/// The range of the quotients; None where no pair is in the domain.
pub(crate) fn div_s(x: Interval, y: Interval) -> Option<Interval>
    requires first { IsBox16 x }
    requires second { IsBox16 y }
    ensures { (z : intervals.Interval) → IsHull Op.DivS x y z result }
{
    let least = larger(x.low, 0);
    if no_pair(x, y, least) {
        return None;
    }
    Some(quotients(x, y, least))
}
