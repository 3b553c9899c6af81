//! A fixed generator of numbers, intervals and sides.

ghost use Rattle.std.specs.Prelude.{pos, ◌≡◌, ◌<◌, ◌≤◌, ◌≤ℤ◌, negsuc};
ghost use Rattle.wm_octagon.specs.Ranges.{IsNarrow};
ghost use Rattle.wm_enumerate.specs.Drawn.{IsTiny, IsTinyRange};

use wm_interval::Interval;
use wm_octagon::Side;

/// The numbers of the generator `x := x * 6364136223846793005 + 1442695040888963407` modulo 2^64, from 1.
#[derive(Drop)]
pub(crate) struct Draws {
    state: u64,
}

impl Draws {
    pub(crate) fn new() -> Draws {
        Draws { state: 1 }
    }

    // The upper 32 bits of the next number.
    fn next(&mut self) -> u32 {
        self.state = self
            .state
            .wrapping_mul(6364136223846793005)
            .wrapping_add(1442695040888963407);
        (self.state >> 32) as u32
    }

    /// A number from 0, below `n`: the remainder of the next draw.
    #[tactic(auto, using(std::proofs::lemmas::Nat::mod_below))]
    pub(crate) fn below(&mut self, n: u64) -> u64
        requires { 0 < n }
        ensures { result < n }
    {
        u64::from(self.next()) % n
    }

    /// One of the first variables.
    pub(crate) fn variable(&mut self, variables: usize) -> usize
        requires { 0 < variables }
        ensures { result < variables }
    {
        self.below(variables as u64) as usize
    }

    pub(crate) fn coin(&mut self) -> bool {
        self.below(2) == 0
    }

    /// A number from -6 to 6.
    pub(crate) fn number(&mut self) -> i64
        ensures { IsTiny result }
    {
        self.below(13) as i64 - 6
    }

    /// An interval from a number that is at most `most` in size, and of at most so many numbers.
    pub(crate) fn interval(&mut self, most: u64) -> Interval
        requires { most ≤ 6 }
        ensures tiny { IsTinyRange result }
        ensures narrow { IsNarrow result }
    {
        let low = self.below(most + 1) as i64 - self.below(most + 1) as i64;
        let high = low + self.below(most + 1) as i64;
        Interval::new(low, high)
    }

    /// A side of one of the first variables.
    pub(crate) fn side(&mut self, variables: usize) -> Side
        requires { 0 < variables }
        ensures { result.variable < variables }
    {
        let variable = self.variable(variables);
        Side {
            variable,
            negative: self.coin(),
        }
    }
}
