//! The fixed generator of numbers that a yardstick draws from too.

ghost use Rattle.std.specs.Prelude.{◌<◌, ◌^◌};
ghost use Rattle.wm_interval.specs.Holds.{Holds, SizesAtMost};

use wm_interval::Interval;

/// The numbers of the generator `x := x * 6364136223846793005 + 1442695040888963407` modulo 2^64, from 1.
#[derive(Drop)]
pub(crate) struct Draws {
    state: u64,
}

impl Draws {
    pub(crate) fn new() -> Draws {
        Draws { state: 1 }
    }

    // The upper 32 bits of the next number.
    fn next(&mut self) -> u32 {
        self.state = self
            .state
            .wrapping_mul(6364136223846793005)
            .wrapping_add(1442695040888963407);
        (self.state >> 32) as u32
    }

    /// A number from 0, below `n`: the remainder of the next draw.
    #[tactic(auto, using(std::proofs::lemmas::Nat::mod_below))]
    pub(crate) fn below(&mut self, n: u64) -> u64
        requires { 0 < n }
        ensures { result < n }
    {
        u64::from(self.next()) % n
    }

    /// A number of the range, whose ends are at most 2^31 in size.
    pub(crate) fn between(&mut self, range: Interval) -> i64
        requires { SizesAtMost (2 ^ 31) range }
        ensures { Holds range result }
    {
        let last = (range.high - range.low) as u64;
        range.low + self.below(last + 1) as i64
    }
}
