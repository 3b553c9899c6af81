//! Intervals as sets of numbers: the least that holds two, the common part of two, and inclusion.

ghost use Rattle.std.specs.Prelude.{◌≡◌, ℤ, ◌↔◌, IsTrue, MatchOption, ◌≤ℤ◌, ◌<ℤ◌};
ghost use Rattle.std.specs.Int.{int_max, int_min};
ghost use Rattle.wm_interval.specs.Holds.{Holds, IsHullOf, InEither, InBoth};

use crate::Interval;
use crate::ends::{greater, lesser};

impl Interval {
    /// The least interval that holds both.
    pub fn join(self, other: Interval) -> Interval
        ensures low { result.low ≡ int_min self.low other.low }
        ensures high { result.high ≡ int_max self.high other.high }
        ensures least { IsHullOf (InEither self other) result }
    {
        Interval::new(lesser(self.low, other.low), greater(self.high, other.high))
    }

    /// The numbers that both hold, or None exactly where they have no common number.
    pub fn meet(self, other: Interval) -> Option<Interval>
        ensures ends { MatchOption result (int_min self.high other.high <ℤ int_max self.low other.low) (λ r. (r.low ≡ int_max self.low other.low) × (r.high ≡ int_min self.high other.high)) }
        ensures common { MatchOption result ((z : ℤ) → InBoth self other z → ⊥) (λ r. IsHullOf (InBoth self other) r) }
        ensures each { MatchOption result (Unit {0}) (λ r. (z : ℤ) → Holds r z ↔ InBoth self other z) }
    {
        let low = greater(self.low, other.low);
        let high = lesser(self.high, other.high);
        if low > high {
            return None;
        }
        Some(Interval::new(low, high))
    }

    /// Whether each number of this interval is one of the other.
    pub fn within(self, other: Interval) -> bool
        ensures ends { IsTrue result ↔ ((other.low ≤ℤ self.low) × (self.high ≤ℤ other.high)) }
        ensures inclusion { IsTrue result ↔ ((z : ℤ) → Holds self z → Holds other z) }
    {
        other.low <= self.low && self.high <= other.high
    }
}
