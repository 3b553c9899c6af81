//! Ranges of the lower half of a number, and of its norm.

ghost use Rattle.std.specs.Prelude.{◌≡◌, pos, negsuc, IsTrue, ◌+ℤ◌, ◌≤ℤ◌};
ghost use Rattle.wm_interval.specs.declared.Interval as intervals;
ghost use Rattle.wm_ops.specs.Arguments.{ArgsFit};
ghost use Rattle.wm_ops.specs.Outcomes.{value_of, in_domain};
ghost use Rattle.wm_ops.specs.Parts.{low_half};
ghost use Rattle.wm_numbers.specs.Within.{IsWord16, IsWord32};
ghost use Rattle.wm_numbers.specs.Floor as floors;
ghost use Rattle.wm_hull.specs.Ranges.{IsRangeOf, IsBox32, IsNorm};

use wm_interval::Interval;
use wm_numbers::{MAX_16, MIN_16, floor_shift};
use wm_ops::{Op, Outcome, apply};

/// The value of an operator of one or two numbers at arguments of its domain.
#[tactic(auto, unfolding(wm_ops::specs::Outcomes::outcome_of))]
pub(crate) fn value(op: Op, a: i64, b: i64) -> i64
    requires types { ArgsFit op a b (pos 0) }
    requires domain { IsTrue (in_domain op a b) }
    ensures { result ≡ value_of op a b (pos 0) }
{
    match apply(op, &[a, b, 0]) {
        Outcome::Value { value, .. } => value,
        Outcome::OutOfDomain => 0,
    }
}

/// The number of the page of 65536 numbers on which the lower half of `a` is counted from -32768.
fn page(a: i64) -> i64
    requires { IsWord32 a }
    ensures { result ≡ floors.floor_shift (a +ℤ pos 32768) 16 }
{
    floor_shift(a + 32768, 16)
}

/// The lower half of a number.
#[tactic(auto, unfolding(wm_ops::specs::Outcomes::formula_of, wm_ops::specs::Outcomes::in_domain))]
fn lower_half(a: i64) -> i64
    requires { IsWord32 a }
    ensures { result ≡ low_half a }
{
    value(Op::ExtractL, a, 0)
}

/// The range of the lower halves: all of 16 bits, where two of the numbers are on different pages.
pub(crate) fn lower_halves(x: Interval) -> Interval
    requires { IsBox32 x }
    ensures { (y z : intervals.Interval) → IsRangeOf (λ a b c. low_half a) x y z result }
{
    if page(x.low) != page(x.high) {
        return Interval::new(MIN_16, MAX_16);
    }
    Interval::new(lower_half(x.low), lower_half(x.high))
}

/// The norm of a number.
fn norm(op: Op, a: i64) -> i64
    requires norm { IsNorm op }
    requires types { ArgsFit op a (pos 0) (pos 0) }
    ensures { result ≡ value_of op a (pos 0) (pos 0) }
{
    value(op, a, 0)
}

/// The range of the norms of negative numbers, which rise.
fn negative_norms(op: Op, x: Interval) -> Interval
    requires norm { IsNorm op }
    requires low { ArgsFit op x.low (pos 0) (pos 0) }
    requires high { ArgsFit op x.high (pos 0) (pos 0) }
    requires negative { x.high ≤ℤ negsuc 0 }
    ensures { (y z : intervals.Interval) → IsRangeOf (value_of op) x y z result }
{
    let low = norm(op, x.low);
    let high = norm(op, x.high);
    Interval::new(low, high)
}

/// The range of the norms of positive numbers, which fall.
fn positive_norms(op: Op, x: Interval) -> Interval
    requires norm { IsNorm op }
    requires low { ArgsFit op x.low (pos 0) (pos 0) }
    requires high { ArgsFit op x.high (pos 0) (pos 0) }
    requires positive { pos 1 ≤ℤ x.low }
    ensures { (y z : intervals.Interval) → IsRangeOf (value_of op) x y z result }
{
    let low = norm(op, x.high);
    let high = norm(op, x.low);
    Interval::new(low, high)
}

/// The range from 0 to the norm of `a`.
fn norms_up_to(op: Op, a: i64) -> Interval
    requires norm { IsNorm op }
    requires types { IsWord16 a }
    ensures low { result.low ≡ pos 0 }
    ensures high { result.high ≡ value_of op a (pos 0) (pos 0) }
{
    let high = norm(op, a);
    Interval::new(0, high)
}

/// The range of the norms: they rise to -1, are 0 at 0, and fall from 1.
pub(crate) fn norms(op: Op, x: Interval) -> Interval
    requires norm { IsNorm op }
    requires low { ArgsFit op x.low (pos 0) (pos 0) }
    requires high { ArgsFit op x.high (pos 0) (pos 0) }
    ensures { (y z : intervals.Interval) → IsRangeOf (value_of op) x y z result }
{
    if x.high < 0 {
        return negative_norms(op, x);
    }
    if x.low > 0 {
        return positive_norms(op, x);
    }
    if x.low < 0 {
        return norms_up_to(op, -1);
    }
    if x.high > 0 {
        return norms_up_to(op, 1);
    }
    Interval::new(0, 0)
}
