//! Whether a shift to the left puts some number of a range out of its type.

ghost use Rattle.std.specs.Prelude.{◌≡◌, ◌^◌, min, pos, negsuc, false, ◌≤ℤ◌, ℕ};
ghost use Rattle.wm_numbers.specs.Within.{Within};
ghost use Rattle.wm_interval.specs.declared.Interval as intervals;
ghost use Rattle.wm_ops.specs.Shifts.{shifted, shl_of, shr_of, shr_r_of, l_shl_of, l_shr_of, l_shr_r_of};
ghost use Rattle.wm_hull.specs.Failures.{TellsWhether, TellsLeaving16, TellsLeaving32};
ghost use Rattle.wm_hull.specs.Ranges.{IsBox16, IsBox32};

use crate::ranges::{leaves16, leaves32, scaled};
use wm_interval::Interval;

// 2 to the power `places`, or 2^32 for more than 32 places.
fn factor(places: u64) -> i64
    ensures factor { result ≡ pos (2 ^ min places 32) }
    ensures small { Within (pos 0) (pos 4294967296) result }
{
    (1_u64 << places.min(32)) as i64
}

// The range of the numbers shifted to the left by at most 32 places, before the clamp.
fn moved(x: Interval, places: u64) -> Interval
    requires { IsBox32 x }
    ensures low { result.low ≡ shifted x.low (min places 32) }
    ensures high { result.high ≡ shifted x.high (min places 32) }
{
    scaled(x, factor(places))
}

// Whether some number of the range leaves 16 bits when it is shifted to the left by `count` places, cut at 32; by none
// where the count is negative.
fn shifts_leave16(x: Interval, count: i64) -> bool
    requires { IsBox16 x }
    ensures right { count ≤ℤ negsuc 0 → result ≡ false }
    ensures left { (k : ℕ) → count ≡ pos k → TellsLeaving16 result (shifted x.low (min k 32)) (shifted x.high (min k 32)) }
{
    if count < 0 {
        return false;
    }
    leaves16(moved(x, count.unsigned_abs()))
}

// The same for 32 bits.
fn shifts_leave32(x: Interval, count: i64) -> bool
    requires { IsBox32 x }
    ensures right { count ≤ℤ negsuc 0 → result ≡ false }
    ensures left { (k : ℕ) → count ≡ pos k → TellsLeaving32 result (shifted x.low (min k 32)) (shifted x.high (min k 32)) }
{
    if count < 0 {
        return false;
    }
    leaves32(moved(x, count.unsigned_abs()))
}

/// Whether a shift to the left saturates at some number of 16 bits and some count: where it does at all it does at the
/// greatest count.
pub(crate) fn lefts_leave16(x: Interval, counts: Interval) -> bool
    requires first { IsBox16 x }
    requires second { IsBox16 counts }
    ensures { (z : intervals.Interval) → TellsWhether result (λ a b c. (shl_of a b).changed) x counts z }
{
    shifts_leave16(x, counts.high)
}

/// The same of a shift to the right, also of one that is rounded: at the least count.
pub(crate) fn rights_leave16(x: Interval, counts: Interval) -> bool
    requires first { IsBox16 x }
    requires second { IsBox16 counts }
    ensures down { (z : intervals.Interval) → TellsWhether result (λ a b c. (shr_of a b).changed) x counts z }
    ensures rounded { (z : intervals.Interval) → TellsWhether result (λ a b c. (shr_r_of a b).changed) x counts z }
{
    shifts_leave16(x, -counts.low)
}

/// Whether a shift to the left saturates at some number of 32 bits and some count: where it does at all it does at the
/// greatest count.
pub(crate) fn lefts_leave32(x: Interval, counts: Interval) -> bool
    requires first { IsBox32 x }
    requires second { IsBox16 counts }
    ensures { (z : intervals.Interval) → TellsWhether result (λ a b c. (l_shl_of a b).changed) x counts z }
{
    shifts_leave32(x, counts.high)
}

/// The same of a shift to the right, also of one that is rounded: at the least count.
pub(crate) fn rights_leave32(x: Interval, counts: Interval) -> bool
    requires first { IsBox32 x }
    requires second { IsBox16 counts }
    ensures down { (z : intervals.Interval) → TellsWhether result (λ a b c. (l_shr_of a b).changed) x counts z }
    ensures rounded { (z : intervals.Interval) → TellsWhether result (λ a b c. (l_shr_r_of a b).changed) x counts z }
{
    shifts_leave32(x, -counts.low)
}
