//! Ranges under the steps that the formulas of the operators are made of.

ghost use Rattle.std.specs.Prelude.{◌≡◌, ◌≤◌, ◌^◌, pos, negsuc, ◌+ℤ◌, ◌*ℤ◌, neg_ℤ, ◌≤ℤ◌};
ghost use Rattle.wm_interval.specs.Holds.{SizesBelow};
ghost use Rattle.wm_numbers.specs.Clamp as clamps;
ghost use Rattle.wm_numbers.specs.Floor as floors;
ghost use Rattle.wm_numbers.specs.Within.{Within, IsWord32};
ghost use Rattle.wm_hull.specs.Failures.{TellsLeaving16, TellsLeaving32};
ghost use Rattle.wm_hull.specs.Ranges.{IsBox16, IsBox32};

use wm_interval::Interval;
use wm_numbers::{MAX_16, MAX_32, MIN_16, MIN_32, clamp16, clamp32, floor_shift};

/// The range clamped to 16 bits.
#[tactic(auto, using(std::proofs::lemmas::Int::ints, std::proofs::lemmas::Int::clamps), unfolding(wm_numbers::specs::Clamp::clamp))]
pub(crate) fn clamped16(range: Interval) -> Interval
    ensures low { result.low ≡ clamps.clamp16 range.low }
    ensures high { result.high ≡ clamps.clamp16 range.high }
{
    Interval::new(clamp16(range.low), clamp16(range.high))
}

/// The range clamped to 32 bits.
#[tactic(auto, using(std::proofs::lemmas::Int::ints, std::proofs::lemmas::Int::clamps), unfolding(wm_numbers::specs::Clamp::clamp))]
pub(crate) fn clamped32(range: Interval) -> Interval
    ensures low { result.low ≡ clamps.clamp32 range.low }
    ensures high { result.high ≡ clamps.clamp32 range.high }
    ensures inside { IsBox32 result }
{
    Interval::new(clamp32(range.low), clamp32(range.high))
}

/// Whether a clamp to 16 bits changes some number of the range.
#[tactic(auto, unfolding(wm_ops::specs::Clamping::leaves16))]
pub(crate) fn leaves16(range: Interval) -> bool
    ensures { TellsLeaving16 result range.low range.high }
{
    range.low < MIN_16 || range.high > MAX_16
}

/// Whether a clamp to 32 bits changes some number of the range.
#[tactic(auto, unfolding(wm_ops::specs::Clamping::leaves32))]
pub(crate) fn leaves32(range: Interval) -> bool
    ensures { TellsLeaving32 result range.low range.high }
{
    range.low < MIN_32 || range.high > MAX_32
}

/// The range divided by 2 to the power `places` and rounded down.
pub(crate) fn floored(range: Interval, places: u32) -> Interval
    requires { places ≤ 62 }
    ensures low { result.low ≡ floors.floor_shift range.low places }
    ensures high { result.high ≡ floors.floor_shift range.high places }
{
    Interval::new(
        floor_shift(range.low, places),
        floor_shift(range.high, places),
    )
}

/// The range with `step` added to each number.
pub(crate) fn raised(range: Interval, step: i64) -> Interval
    requires range { SizesBelow (2 ^ 62) range }
    requires step { Within (pos 0) (pos 65536) step }
    ensures low { result.low ≡ range.low +ℤ step }
    ensures high { result.high ≡ range.high +ℤ step }
{
    Interval::new(range.low + step, range.high + step)
}

/// The range with each number times `factor`.
pub(crate) fn scaled(range: Interval, factor: i64) -> Interval
    requires range { IsBox32 range }
    requires factor { Within (pos 0) (pos 4294967296) factor }
    ensures low { result.low ≡ range.low *ℤ factor }
    ensures high { result.high ≡ range.high *ℤ factor }
{
    Interval::new(product(range.low, factor), product(range.high, factor))
}

// A number of 32 bits times a factor of at most 2^32.
fn product(a: i64, factor: i64) -> i64
    requires number { IsWord32 a }
    requires factor { Within (pos 0) (pos 4294967296) factor }
    ensures { result ≡ a *ℤ factor }
{
    a * factor
}

/// The opposites of the numbers of the range.
pub(crate) fn negated(range: Interval) -> Interval
    requires { SizesBelow (2 ^ 62) range }
    ensures low { result.low ≡ neg_ℤ range.high }
    ensures high { result.high ≡ neg_ℤ range.low }
{
    Interval::new(-range.high, -range.low)
}
