// Sums, differences, sizes and opposites.
ghost use Rattle.std.specs.Prelude.{◌≡◌};
ghost use Rattle.wm_numbers.specs.Within.{IsWord16, IsWord32};
ghost use Rattle.wm_ops.specs.Sums.{add_of, sub_of, abs_s_of, negate_of, l_add_of, l_sub_of, l_abs_of, l_negate_of};

use crate::clamping::{Clamped, to16, to32};

pub(crate) fn add(a: i64, b: i64) -> Clamped
    requires first { IsWord16 a }
    requires second { IsWord16 b }
    ensures formula { result ≡ add_of a b }
{
    to16(a + b)
}

pub(crate) fn sub(a: i64, b: i64) -> Clamped
    requires first { IsWord16 a }
    requires second { IsWord16 b }
    ensures formula { result ≡ sub_of a b }
{
    to16(a - b)
}

pub(crate) fn abs_s(a: i64) -> Clamped
    requires { IsWord16 a }
    ensures formula { result ≡ abs_s_of a }
{
    to16(a.abs())
}

pub(crate) fn negate(a: i64) -> Clamped
    requires { IsWord16 a }
    ensures formula { result ≡ negate_of a }
{
    to16(-a)
}

pub(crate) fn l_add(a: i64, b: i64) -> Clamped
    requires first { IsWord32 a }
    requires second { IsWord32 b }
    ensures formula { result ≡ l_add_of a b }
    ensures within { IsWord32 result.value }
{
    to32(a + b)
}

pub(crate) fn l_sub(a: i64, b: i64) -> Clamped
    requires first { IsWord32 a }
    requires second { IsWord32 b }
    ensures formula { result ≡ l_sub_of a b }
    ensures within { IsWord32 result.value }
{
    to32(a - b)
}

pub(crate) fn l_abs(a: i64) -> Clamped
    requires { IsWord32 a }
    ensures formula { result ≡ l_abs_of a }
{
    to32(a.abs())
}

pub(crate) fn l_negate(a: i64) -> Clamped
    requires { IsWord32 a }
    ensures formula { result ≡ l_negate_of a }
{
    to32(-a)
}
