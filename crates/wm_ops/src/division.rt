// The quotient of two fractions, and its domain.
ghost use Rattle.std.specs.Prelude.{◌≡◌, IsTrue};
ghost use Rattle.wm_numbers.specs.Within.{IsWord16};
ghost use Rattle.wm_ops.specs.Division as divisions;

use crate::clamping::{Clamped, exact};

/// Whether a and b are in the domain: 0 <= a <= b and b > 0.
#[tactic(auto, unfolding(crate::specs::Division::is_quotient))]
pub(crate) fn is_quotient(a: i64, b: i64) -> bool
    ensures domain { result ≡ divisions.is_quotient a b }
{
    a >= 0 && a <= b && b > 0
}

#[tactic(auto, unfolding(crate::specs::Division::is_quotient, crate::specs::Division::quotient))]
pub(crate) fn div_s(a: i64, b: i64) -> Clamped
    requires first { IsWord16 a }
    requires second { IsWord16 b }
    requires domain { IsTrue (divisions.is_quotient a b) }
    ensures formula { result ≡ divisions.div_s_of a b }
{
    if a == b {
        return exact(32767);
    }
    exact((a * 32768).div_euclid(b))
}
