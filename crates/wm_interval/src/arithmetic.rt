//! Sums, differences and products of intervals: the least interval that holds all results.

ghost use Rattle.std.specs.Prelude.{◌≡◌, ◌≤◌, ◌^◌, unsigned_abs, ◌+ℤ◌, ◌-ℤ◌, ◌*ℤ◌};
ghost use Rattle.std.specs.Int.{int_max, int_min};
ghost use Rattle.wm_interval.specs.Holds.{IsHullOf, ResultOn, SizesBelow, SizesAtMost};

use crate::Interval;
use crate::ends::{greatest_of_four, least_of_four};

impl Interval {
    /// The least interval that holds each sum of a number of this one and a number of the other.
    /// All ends are below 2^62 in size.
    pub fn add(self, other: Interval) -> Interval
        requires here { SizesBelow (2 ^ 62) self }
        requires there { SizesBelow (2 ^ 62) other }
        ensures low { result.low ≡ self.low +ℤ other.low }
        ensures high { result.high ≡ self.high +ℤ other.high }
        ensures least { IsHullOf (ResultOn ◌+ℤ◌ self other) result }
    {
        Interval::new(self.low + other.low, self.high + other.high)
    }

    /// The least interval that holds each difference of a number of this one and a number of the other.
    /// All ends are below 2^62 in size.
    pub fn sub(self, other: Interval) -> Interval
        requires here { SizesBelow (2 ^ 62) self }
        requires there { SizesBelow (2 ^ 62) other }
        ensures low { result.low ≡ self.low -ℤ other.high }
        ensures high { result.high ≡ self.high -ℤ other.low }
        ensures least { IsHullOf (ResultOn ◌-ℤ◌ self other) result }
    {
        Interval::new(self.low - other.high, self.high - other.low)
    }

    /// The least interval that holds each product of a number of this one and a number of the other.
    /// All ends are at most 2^31 in size.
    pub fn mul(self, other: Interval) -> Interval
        requires here { SizesAtMost (2 ^ 31) self }
        requires there { SizesAtMost (2 ^ 31) other }
        ensures low { result.low ≡ int_min (int_min (self.low *ℤ other.low) (self.low *ℤ other.high)) (int_min (self.high *ℤ other.low) (self.high *ℤ other.high)) }
        ensures high { result.high ≡ int_max (int_max (self.low *ℤ other.low) (self.low *ℤ other.high)) (int_max (self.high *ℤ other.low) (self.high *ℤ other.high)) }
        ensures least { IsHullOf (ResultOn ◌*ℤ◌ self other) result }
    {
        let low_low = product(self.low, other.low);
        let low_high = product(self.low, other.high);
        let high_low = product(self.high, other.low);
        let high_high = product(self.high, other.high);
        let low = least_of_four(low_low, low_high, high_low, high_high);
        let high = greatest_of_four(low_low, low_high, high_low, high_high);
        Interval::new(low, high)
    }
}

// The product of two numbers of sizes at most 2^31.
fn product(a: i64, b: i64) -> i64
    requires here { unsigned_abs a ≤ 2 ^ 31 }
    requires there { unsigned_abs b ≤ 2 ^ 31 }
    ensures { result ≡ a *ℤ b }
{
    a * b
}
