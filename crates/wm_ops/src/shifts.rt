// Shifts by a count of either sign: to the left with a clamp, to the right rounded down or to the nearest. A count of
// more than 32 places gives what 32 places give, so that no step leaves 64 bits.
ghost use Rattle.std.specs.Prelude.{◌≡◌, ◌≤◌, ◌<◌, ◌-◌, ◌^◌, pos, min};
ghost use Rattle.wm_numbers.specs.Within.{IsWord16, IsWord32};
ghost use Rattle.wm_numbers.specs.Floor as floors;
ghost use Rattle.wm_ops.specs.Clamping as clamps;
ghost use Rattle.wm_ops.specs.Shifts.{shifted, rounded_shift, shl_of, shr_of, shr_r_of, l_shl_of, l_shr_of, l_shr_r_of};

use crate::clamping::{Clamped, exact, to16, to32};
use wm_numbers::floor_shift;

/// The places that are looked at: a shift of 32 bits by more gives the same.
fn cut(places: u64) -> u32
    ensures cut { result ≡ min places 32 }
{
    places.min(32) as u32
}

/// 2 to the power `places`.
fn power_of_two(places: u32) -> i64
    requires { places ≤ 32 }
    ensures power { result ≡ pos (2 ^ places) }
{
    (1_u64 << places) as i64
}

fn left16(a: i64, places: u64) -> Clamped
    requires { IsWord16 a }
    ensures formula { result ≡ clamps.to16 (shifted a places) }
{
    to16(a * power_of_two(cut(places)))
}

fn left32(a: i64, places: u64) -> Clamped
    requires { IsWord32 a }
    ensures formula { result ≡ clamps.to32 (shifted a places) }
{
    to32(a * power_of_two(cut(places)))
}

fn right(a: i64, places: u64) -> Clamped
    requires { IsWord32 a }
    ensures formula { result ≡ clamps.exact (floors.floor_shift a places) }
{
    exact(floor_shift(a, cut(places)))
}

fn right_rounded(a: i64, places: u64) -> Clamped
    requires number { IsWord32 a }
    requires positive { 0 < places }
    ensures formula { result ≡ clamps.exact (rounded_shift a (places - 1)) }
{
    if places > 32 {
        return exact(0);
    }
    let half = power_of_two(places as u32 - 1);
    exact(floor_shift(a + half, places as u32))
}

pub(crate) fn shl(a: i64, n: i64) -> Clamped
    requires first { IsWord16 a }
    requires second { IsWord16 n }
    ensures formula { result ≡ shl_of a n }
{
    if n < 0 {
        return right(a, n.unsigned_abs());
    }
    left16(a, n.unsigned_abs())
}

pub(crate) fn shr(a: i64, n: i64) -> Clamped
    requires first { IsWord16 a }
    requires second { IsWord16 n }
    ensures formula { result ≡ shr_of a n }
{
    if n > 0 {
        return right(a, n.unsigned_abs());
    }
    left16(a, n.unsigned_abs())
}

pub(crate) fn shr_r(a: i64, n: i64) -> Clamped
    requires first { IsWord16 a }
    requires second { IsWord16 n }
    ensures formula { result ≡ shr_r_of a n }
{
    if n > 0 {
        return right_rounded(a, n.unsigned_abs());
    }
    left16(a, n.unsigned_abs())
}

pub(crate) fn l_shl(a: i64, n: i64) -> Clamped
    requires first { IsWord32 a }
    requires second { IsWord16 n }
    ensures formula { result ≡ l_shl_of a n }
{
    if n < 0 {
        return right(a, n.unsigned_abs());
    }
    left32(a, n.unsigned_abs())
}

pub(crate) fn l_shr(a: i64, n: i64) -> Clamped
    requires first { IsWord32 a }
    requires second { IsWord16 n }
    ensures formula { result ≡ l_shr_of a n }
{
    if n > 0 {
        return right(a, n.unsigned_abs());
    }
    left32(a, n.unsigned_abs())
}

pub(crate) fn l_shr_r(a: i64, n: i64) -> Clamped
    requires first { IsWord32 a }
    requires second { IsWord16 n }
    ensures formula { result ≡ l_shr_r_of a n }
{
    if n > 0 {
        return right_rounded(a, n.unsigned_abs());
    }
    left32(a, n.unsigned_abs())
}
