// The halves of a number of 32 bits, numbers put into a half, and rounding to the upper half.
ghost use Rattle.std.specs.Prelude.{◌≡◌};
ghost use Rattle.wm_numbers.specs.Within.{IsWord16, IsWord32};
ghost use Rattle.wm_ops.specs.Parts.{extract_h_of, extract_l_of, l_deposit_h_of, l_deposit_l_of, round_of, mac_r_of, msu_r_of};

use crate::clamping::{Clamped, exact};
use crate::products::{l_mac, l_msu};
use crate::sums::l_add;
use wm_numbers::floor_shift;

pub(crate) fn extract_h(a: i64) -> Clamped
    requires { IsWord32 a }
    ensures formula { result ≡ extract_h_of a }
{
    exact(floor_shift(a, 16))
}

#[tactic(auto, unfolding(crate::specs::Parts::low_half))]
pub(crate) fn extract_l(a: i64) -> Clamped
    requires { IsWord32 a }
    ensures formula { result ≡ extract_l_of a }
{
    exact(a - floor_shift(a + 32768, 16) * 65536)
}

pub(crate) fn l_deposit_h(a: i64) -> Clamped
    requires { IsWord16 a }
    ensures formula { result ≡ l_deposit_h_of a }
{
    exact(a * 65536)
}

pub(crate) fn l_deposit_l(a: i64) -> Clamped
    requires { IsWord16 a }
    ensures formula { result ≡ l_deposit_l_of a }
{
    exact(a)
}

pub(crate) fn round(a: i64) -> Clamped
    requires { IsWord32 a }
    ensures formula { result ≡ round_of a }
{
    let sum = l_add(a, 32768);
    sum.then(extract_h(sum.value))
}

pub(crate) fn mac_r(a: i64, b: i64, c: i64) -> Clamped
    requires first { IsWord32 a }
    requires second { IsWord16 b }
    requires third { IsWord16 c }
    ensures formula { result ≡ mac_r_of a b c }
{
    let sum = l_mac(a, b, c);
    sum.then(round(sum.value))
}

pub(crate) fn msu_r(a: i64, b: i64, c: i64) -> Clamped
    requires first { IsWord32 a }
    requires second { IsWord16 b }
    requires third { IsWord16 c }
    ensures formula { result ≡ msu_r_of a b c }
{
    let difference = l_msu(a, b, c);
    difference.then(round(difference.value))
}
