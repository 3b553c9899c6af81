//! Definitions and laws on whole numbers that std lacks: ranges, saturation, floors by powers of two, and the least
//! and the greatest of a function over a box. Every other crate may rest on this one, which rests on std alone.
#![tactic(auto)]

ghost use Rattle.std.specs.Prelude.{◌≡◌, ◌≤◌, ◌^◌, pos, negsuc, ◌+ℤ◌, ◌*ℤ◌, ◌≤ℤ◌, ◌<ℤ◌};
ghost use Rattle.wm_numbers.specs.Clamp.{clamp16, clamp32};
ghost use Rattle.wm_numbers.specs.Floor.{floor_shift};
ghost use Rattle.wm_numbers.specs.Nearest.{NearestIn};

/// The least number of the type Word16.
pub const MIN_16: i64 = -32768;

/// The greatest number of the type Word16.
pub const MAX_16: i64 = 32767;

/// The least number of the type Word32.
pub const MIN_32: i64 = -2147483648;

/// The greatest number of the type Word32.
pub const MAX_32: i64 = 2147483647;

/// The number from -32768 to 32767 that is nearest to `z`: saturation to 16 bits.
#[tactic(auto, unfolding(crate::specs::Clamp::clamp))]
pub fn clamp16(z: i64) -> i64
    ensures value { result ≡ clamp16 z }
    ensures nearest { NearestIn (negsuc 32767) (pos 32767) z result }
{
    if z < MIN_16 {
        return MIN_16;
    }
    if z > MAX_16 {
        return MAX_16;
    }
    z
}

/// The number from -2147483648 to 2147483647 that is nearest to `z`: saturation to 32 bits.
#[tactic(auto, unfolding(crate::specs::Clamp::clamp))]
pub fn clamp32(z: i64) -> i64
    ensures value { result ≡ clamp32 z }
    ensures nearest { NearestIn (negsuc 2147483647) (pos 2147483647) z result }
{
    if z < MIN_32 {
        return MIN_32;
    }
    if z > MAX_32 {
        return MAX_32;
    }
    z
}

/// The greatest whole number at most `z` divided by 2 to the power `places`: an arithmetic shift to the right.
pub fn floor_shift(z: i64, places: u32) -> i64
    requires { places ≤ 62 }
    ensures value { result ≡ floor_shift z places }
    ensures below { (result *ℤ pos (2 ^ places)) ≤ℤ z }
    ensures above { z <ℤ ((result +ℤ pos 1) *ℤ pos (2 ^ places)) }
{
    z >> places
}
