// Whether shapes are of a kind that every domain takes.
ghost use Rattle.std.specs.Prelude.{◌≡◌, true, All};
ghost use Rattle.wm_domain.specs.States.{IsShape};

use wm_domain::Shape;
use wm_drawn::is_shape;

/// Whether each of the shapes has at most 32 variables in its group and full ranges of 32 bits. Those of the graph of a program do.
pub(crate) fn are_shapes(shapes: &[Shape]) -> bool
    ensures { result ≡ true → All IsShape shapes.now }
{
    for k in 0..shapes.len() {
        if !is_shape(&shapes[k]) {
            return false;
        }
    }
    true
}
