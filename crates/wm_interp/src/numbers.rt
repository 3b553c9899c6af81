// Plain arithmetic on whole numbers, comparisons, casts, and the tests whether a number fits.
ghost use Rattle.std.specs.Prelude.{◌≡◌, IsTrue, IfSome, IfOk};
ghost use Rattle.wm_ops.specs.Arguments.{HasWidth, ArgsFit, FitsAt};
ghost use Rattle.wm_ops.specs.Clamping.{leaves16, leaves32};
ghost use Rattle.wm_ops.specs.Parts.{low_half};
ghost use Rattle.wm_numbers.specs.Within.{IsWord16, IsWord32};
ghost use Rattle.wm_program.specs.Numbers.{plain_of, compares, cast_to, clamp_to, is_outside, natural};

use crate::halt::Refusal;
use wm_numbers::{MAX_16, MAX_32, MIN_16, MIN_32, clamp16, clamp32, floor_shift};
use wm_ops::{Op, Width, arg_width, arity};
use wm_program::{Comparison, PlainMark};

/// Whether a number is none of 16 bits.
#[tactic(auto, unfolding(wm_ops::specs::Clamping::leaves16))]
pub(crate) fn leaves16(z: i64) -> bool
    ensures { result ≡ leaves16 z }
{
    z < MIN_16 || z > MAX_16
}

/// Whether a number is none of 32 bits.
#[tactic(auto, unfolding(wm_ops::specs::Clamping::leaves32))]
pub(crate) fn leaves32(z: i64) -> bool
    ensures { result ≡ leaves32 z }
{
    z < MIN_32 || z > MAX_32
}

/// The exact value of a plain operator; none where it is not one of 64 bits, or a divisor is 0.
pub(crate) fn plain(mark: PlainMark, a: i64, b: i64) -> Option<i64>
    ensures { IfSome result (λ z. plain_of mark a b ≡ z) }
{
    match mark {
        PlainMark::Plus => a.checked_add(b),
        PlainMark::Minus => a.checked_sub(b),
        PlainMark::Times => a.checked_mul(b),
        PlainMark::Divide => a.checked_div(b),
    }
}

pub(crate) fn compares(mark: Comparison, a: i64, b: i64) -> bool
    ensures { result ≡ compares mark a b }
{
    match mark {
        Comparison::Less => a < b,
        Comparison::LessEqual => a <= b,
        Comparison::Greater => a > b,
        Comparison::GreaterEqual => a >= b,
        Comparison::Equal => a == b,
        Comparison::NotEqual => a != b,
    }
}

/// A cast of a number of 32 bits: to 16 bits the low half, to 32 bits the number itself.
pub(crate) fn cast_to(width: Width, z: i64) -> Result<i64, Refusal>
    ensures { IfOk result (λ x. cast_to width z ≡ x) }
{
    match width {
        Width::W16 => low_half(z),
        Width::W32 => Ok(z),
    }
}

#[tactic(auto, unfolding(wm_ops::specs::Parts::low_half))]
fn low_half(z: i64) -> Result<i64, Refusal>
    ensures { IfOk result (λ x. low_half z ≡ x) }
{
    if z < MIN_32 || z > MAX_32 {
        return Err(Refusal::Unfit);
    }
    Ok(z - floor_shift(z + 32768, 16) * 65536)
}

/// The nearest number of the type.
pub(crate) fn clamp_to(width: Width, z: i64) -> i64
    ensures { result ≡ clamp_to width z }
{
    match width {
        Width::W16 => clamp16(z),
        Width::W32 => clamp32(z),
    }
}

/// Whether a number is no index below the limit.
pub(crate) fn is_outside(limit: usize, z: i64) -> bool
    ensures outside { result ≡ is_outside limit z }
{
    z < 0 || z as usize >= limit
}

/// A number that is no negative one, as an index.
pub(crate) fn natural(z: i64) -> usize
    ensures { result ≡ natural z }
{
    if z < 0 { 0 } else { z as usize }
}

/// Whether a number lies in its type.
pub(crate) fn lies_in(width: Width, z: i64) -> bool
    ensures { IsTrue result → HasWidth width z }
{
    match width {
        Width::W16 => MIN_16 <= z && z <= MAX_16,
        Width::W32 => MIN_32 <= z && z <= MAX_32,
    }
}

/// Whether each argument that the operator takes lies in its type.
pub(crate) fn args_fit(op: Op, a: i64, b: i64, c: i64) -> bool
    ensures { IsTrue result → ArgsFit op a b c }
{
    if !arg_fits(op, 0, a) {
        return false;
    }
    if !arg_fits(op, 1, b) {
        return false;
    }
    arg_fits(op, 2, c)
}

fn arg_fits(op: Op, k: usize, z: i64) -> bool
    ensures { IsTrue result → FitsAt op k z }
{
    if k < arity(op) {
        return lies_in(arg_width(op, k), z);
    }
    true
}
