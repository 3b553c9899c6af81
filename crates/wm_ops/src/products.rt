// Products, with and without rounding and doubling, and products added to a sum or taken from it.
ghost use Rattle.std.specs.Prelude.{◌≡◌, ◌*ℤ◌, pos, negsuc};
ghost use Rattle.wm_numbers.specs.Within.{Within, IsWord16, IsWord32};
ghost use Rattle.wm_ops.specs.Products.{mult_of, mult_r_of, l_mult_of, l_mult0_of, l_mac_of, l_msu_of, l_mac0_of, l_msu0_of};

use crate::clamping::{Clamped, exact, to16, to32};
use crate::sums::{l_add, l_sub};
use wm_numbers::floor_shift;

/// The product of two numbers of 16 bits, at most 2^30 in size.
#[tactic(auto, using(crate::proofs::Bounds::product_small))]
fn product(a: i64, b: i64) -> i64
    requires first { IsWord16 a }
    requires second { IsWord16 b }
    ensures value { result ≡ a *ℤ b }
    ensures small { Within (negsuc 1073741823) (pos 1073741824) result }
{
    a * b
}

pub(crate) fn mult(a: i64, b: i64) -> Clamped
    requires first { IsWord16 a }
    requires second { IsWord16 b }
    ensures formula { result ≡ mult_of a b }
{
    to16(floor_shift(product(a, b), 15))
}

pub(crate) fn mult_r(a: i64, b: i64) -> Clamped
    requires first { IsWord16 a }
    requires second { IsWord16 b }
    ensures formula { result ≡ mult_r_of a b }
{
    to16(floor_shift(product(a, b) + 16384, 15))
}

pub(crate) fn l_mult(a: i64, b: i64) -> Clamped
    requires first { IsWord16 a }
    requires second { IsWord16 b }
    ensures formula { result ≡ l_mult_of a b }
    ensures within { IsWord32 result.value }
{
    to32(2 * product(a, b))
}

pub(crate) fn l_mult0(a: i64, b: i64) -> Clamped
    requires first { IsWord16 a }
    requires second { IsWord16 b }
    ensures formula { result ≡ l_mult0_of a b }
    ensures within { IsWord32 result.value }
{
    exact(product(a, b))
}

pub(crate) fn l_mac(a: i64, b: i64, c: i64) -> Clamped
    requires first { IsWord32 a }
    requires second { IsWord16 b }
    requires third { IsWord16 c }
    ensures formula { result ≡ l_mac_of a b c }
    ensures within { IsWord32 result.value }
{
    let doubled = l_mult(b, c);
    doubled.then(l_add(a, doubled.value))
}

pub(crate) fn l_msu(a: i64, b: i64, c: i64) -> Clamped
    requires first { IsWord32 a }
    requires second { IsWord16 b }
    requires third { IsWord16 c }
    ensures formula { result ≡ l_msu_of a b c }
    ensures within { IsWord32 result.value }
{
    let doubled = l_mult(b, c);
    doubled.then(l_sub(a, doubled.value))
}

pub(crate) fn l_mac0(a: i64, b: i64, c: i64) -> Clamped
    requires first { IsWord32 a }
    requires second { IsWord16 b }
    requires third { IsWord16 c }
    ensures formula { result ≡ l_mac0_of a b c }
{
    let product = l_mult0(b, c);
    product.then(l_add(a, product.value))
}

pub(crate) fn l_msu0(a: i64, b: i64, c: i64) -> Clamped
    requires first { IsWord32 a }
    requires second { IsWord16 b }
    requires third { IsWord16 c }
    ensures formula { result ≡ l_msu0_of a b c }
{
    let product = l_mult0(b, c);
    product.then(l_sub(a, product.value))
}
