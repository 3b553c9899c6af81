// The greater and the lesser of two numbers.
ghost use Rattle.std.specs.Prelude.{◌≡◌};
ghost use Rattle.wm_ops.specs.Choices.{max_of, min_of};

use crate::clamping::{Clamped, exact};

pub(crate) fn greater(a: i64, b: i64) -> Clamped
    ensures formula { result ≡ max_of a b }
{
    exact(a.max(b))
}

pub(crate) fn lesser(a: i64, b: i64) -> Clamped
    ensures formula { result ≡ min_of a b }
{
    exact(a.min(b))
}
