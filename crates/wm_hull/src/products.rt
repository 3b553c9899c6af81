//! Ranges of products, and of sums to which a product is added or from which it is taken.

ghost use Rattle.std.specs.Prelude.{◌≡◌, pos, ◌+ℤ◌, ◌-ℤ◌, ◌*ℤ◌};
ghost use Rattle.wm_interval.specs.Holds.{IsHullOf, ResultOn};
ghost use Rattle.wm_numbers.specs.Clamp.{clamp32};
ghost use Rattle.wm_numbers.specs.Floor.{floor_shift};
ghost use Rattle.wm_hull.specs.Failures.{TellsLeaving32};
ghost use Rattle.wm_hull.specs.Ranges.{IsRangeOf, IsBox16, IsBox32};

use crate::ranges::{clamped32, floored, leaves32, raised, scaled};
use wm_interval::Interval;

/// The range of the products of two numbers of 16 bits.
pub(crate) fn products(x: Interval, y: Interval) -> Interval
    requires first { IsBox16 x }
    requires second { IsBox16 y }
    ensures least { IsHullOf (ResultOn ◌*ℤ◌ x y) result }
    ensures inside { IsBox32 result }
{
    x.mul(y)
}

/// The range of a product as a fraction of 15 bits, before its clamp.
pub(crate) fn fractions(x: Interval, y: Interval) -> Interval
    requires first { IsBox16 x }
    requires second { IsBox16 y }
    ensures { IsHullOf (ResultOn (λ a b. floor_shift (a *ℤ b) 15) x y) result }
{
    floored(products(x, y), 15)
}

/// The same with rounding to the nearest.
pub(crate) fn rounded_fractions(x: Interval, y: Interval) -> Interval
    requires first { IsBox16 x }
    requires second { IsBox16 y }
    ensures { IsHullOf (ResultOn (λ a b. floor_shift ((a *ℤ b) +ℤ pos 16384) 15) x y) result }
{
    floored(raised(products(x, y), 16384), 15)
}

/// The range of twice the product, before its clamp.
pub(crate) fn doubled(x: Interval, y: Interval) -> Interval
    requires first { IsBox16 x }
    requires second { IsBox16 y }
    ensures { IsHullOf (ResultOn (λ a b. pos 2 *ℤ (a *ℤ b)) x y) result }
{
    scaled(products(x, y), 2)
}

/// The range of a sum and twice a product, before the clamp of the sum.
pub(crate) fn multiplied_to(x: Interval, y: Interval, z: Interval) -> Interval
    requires first { IsBox32 x }
    requires second { IsBox16 y }
    requires third { IsBox16 z }
    ensures { IsRangeOf (λ a b c. a +ℤ clamp32 (pos 2 *ℤ (b *ℤ c))) x y z result }
{
    x.add(clamped32(doubled(y, z)))
}

/// The range of a number less twice a product, before the clamp of the difference.
pub(crate) fn multiplied_from(x: Interval, y: Interval, z: Interval) -> Interval
    requires first { IsBox32 x }
    requires second { IsBox16 y }
    requires third { IsBox16 z }
    ensures { IsRangeOf (λ a b c. a -ℤ clamp32 (pos 2 *ℤ (b *ℤ c))) x y z result }
{
    x.sub(clamped32(doubled(y, z)))
}

/// Whether the rounding of some number of 32 bits in the range saturates.
pub(crate) fn rounding_leaves(x: Interval) -> bool
    requires { IsBox32 x }
    ensures { TellsLeaving32 result (x.low +ℤ pos 32768) (x.high +ℤ pos 32768) }
{
    leaves32(raised(x, 32768))
}

/// The range of the numbers rounded to the upper half.
pub(crate) fn rounded(x: Interval) -> Interval
    requires { IsBox32 x }
    ensures low { result.low ≡ floor_shift (clamp32 (x.low +ℤ pos 32768)) 16 }
    ensures high { result.high ≡ floor_shift (clamp32 (x.high +ℤ pos 32768)) 16 }
{
    floored(clamped32(raised(x, 32768)), 16)
}
