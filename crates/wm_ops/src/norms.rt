// How many places a number can be shifted to the left before its sign bit would change.
ghost use Rattle.std.specs.Prelude.{◌≡◌, ◌≤◌, ◌<◌, ◌+◌, ◌-◌, ◌^◌, pos, neg_ℤ};
ghost use Rattle.wm_numbers.specs.Within.{Within, IsWord16, IsWord32};
ghost use Rattle.wm_ops.specs.Norms as norms;

use crate::clamping::{Clamped, exact};

/// How many doublings take `n` to 2^places.
fn doublings(n: u32, places: u32) -> u32
    requires positive { 0 < n }
    requires small { n < 2 ^ (places + 1) }
    requires places { places ≤ 30 }
    ensures doublings { result ≡ norms.doublings places (2 ^ places) n }
{
    n.leading_zeros() - (31 - places)
}

/// `z` itself, or -z - 1 for a negative `z`.
fn folded(z: i64) -> u32
    requires { IsWord32 z }
    ensures folded { result ≡ norms.folded z }
{
    if z < 0 {
        return (-1 - z) as u32;
    }
    z as u32
}

/// The norm of a number below 2^(places + 1) in size.
fn norm(z: i64, places: u32) -> u32
    requires places { places ≤ 30 }
    requires number { Within (neg_ℤ (pos (2 ^ (places + 1)))) (pos (2 ^ (places + 1) - 1)) z }
    ensures norm { result ≡ norms.norm_in places z }
{
    let n = folded(z);
    if n > 0 {
        return doublings(n, places);
    }
    if z < 0 {
        return places + 1;
    }
    0
}

pub(crate) fn norm_s(a: i64) -> Clamped
    requires { IsWord16 a }
    ensures formula { result ≡ norms.norm_s_of a }
{
    exact(i64::from(norm(a, 14)))
}

pub(crate) fn norm_l(a: i64) -> Clamped
    requires { IsWord32 a }
    ensures formula { result ≡ norms.norm_l_of a }
{
    exact(i64::from(norm(a, 30)))
}
