//! Intervals of whole numbers, with exact joins, meets, sums, differences and products. No call takes memory.
#![tactic(auto)]

ghost use Rattle.std.specs.Prelude.{◌≡◌, ◌≤ℤ◌};

mod arithmetic;
mod ends;
mod sets;

/// The whole numbers from `low` to `high`, both included. There is at least one.
#[derive(Clone, Copy, PartialEq, Eq, Debug)]
pub struct Interval {
    /// The least number of the interval.
    pub low: i64,
    /// The greatest number of the interval.
    pub high: i64,
    ghost ordered: { low ≤ℤ high },
}

impl Interval {
    /// The numbers from `low` to `high`.
    pub fn new(low: i64, high: i64) -> Interval
        requires { low ≤ℤ high }
        ensures low { result.low ≡ low }
        ensures high { result.high ≡ high }
    {
        Interval { low, high }
    }
}
