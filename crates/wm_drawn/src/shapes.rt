// Shapes of states.
ghost use Rattle.std.specs.Prelude.{◌≡◌, true, All};
ghost use Rattle.wm_domain.specs.Points.{IsNarrow};
ghost use Rattle.wm_domain.specs.States.{IsShape};

use wm_domain::Shape;
use wm_interval::Interval;

// whether both ends have 32 bits
fn is_narrow(r: Interval) -> bool
    ensures { result ≡ true → IsNarrow r }
{
    if r.low < -2147483648 {
        return false;
    }
    if r.high > 2147483647 {
        return false;
    }
    true
}

fn are_narrow(ranges: &[Interval]) -> bool
    ensures { result ≡ true → All IsNarrow ranges.now }
{
    match ranges.split_first() {
        None => true,
        Some((r, rest)) => {
            if is_narrow(*r) {
                return are_narrow(rest);
            }
            false
        }
    }
}

/// Whether a state can have the shape: at most 32 variables in the group, and full ranges of 32 bits.
pub fn is_shape(shape: &Shape) -> bool
    ensures shape { result ≡ true → IsShape shape.now }
{
    if shape.group.items().len() > 32 {
        return false;
    }
    if !are_narrow(shape.group.items()) {
        return false;
    }
    if !are_narrow(shape.singles.items()) {
        return false;
    }
    are_narrow(shape.arrays.items())
}
