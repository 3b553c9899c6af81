//! Two lists of bounds beside one another.

ghost use Rattle.std.specs.Prelude.{◌≡◌, ◌↔◌, IsTrue, length};
ghost use Rattle.std.specs.Int.{int_max};
ghost use Rattle.wm_octagon.specs.Joining.{greater_of, IsBelow};

/// Keeps the greater of each two bounds.
pub(crate) fn raise_all(bounds: &mut [i64], others: &[i64])
    requires { length bounds.old ≡ length others.now }
    ensures { bounds.new ≡ greater_of bounds.old others.now }
{
    for (i, bound) in bounds.iter_mut().enumerate() {
        *bound = greater(*bound, others[i]);
    }
}

#[inline(always)]
fn greater(a: i64, b: i64) -> i64
    ensures { result ≡ int_max a b }
{
    if b < a { a } else { b }
}

/// Whether each bound is at most the other.
pub(crate) fn all_below(bounds: &[i64], others: &[i64]) -> bool
    requires { length bounds.now ≡ length others.now }
    ensures { IsTrue result ↔ IsBelow bounds.now others.now }
{
    for (i, bound) in bounds.iter().enumerate() {
        if others[i] < *bound {
            return false;
        }
    }
    true
}
