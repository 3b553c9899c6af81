// The number 0.
ghost use Rattle.std.specs.Prelude.{◌≡◌};
ghost use Rattle.wm_flow.specs.Kept as forms;
ghost use Rattle.wm_flow.specs.Tests as tests;
ghost use Rattle.wm_program.specs.Trees.{expression_of};

use sqlite_items::{Boxed, Items};
use wm_program::Expr;

fn is_zero(z: i64) -> bool
    ensures { result ≡ forms.is_zero z }
{
    if z < 0 {
        return false;
    }
    if z > 0 {
        return false;
    }
    true
}

/// Whether an expression is the constant 0.
#[tactic(auto, using(crate::proofs::FirstParts::nought_alone, crate::proofs::FirstParts::nought_among))]
pub fn is_nought(x: &Expr) -> bool
    ensures nought { result ≡ tests.is_nought (expression_of x.now) }
{
    match x {
        Expr::Constant(z) => is_zero(*z),
        Expr::Scalar(_) => false,
        Expr::Element { .. } => false,
        Expr::Operator { .. } => false,
        Expr::Call(_) => false,
        Expr::Chain { first, rest } => match rest.as_slice().split_first() {
            Some(_) => false,
            None => is_nought(first.get()),
        },
        Expr::Negate { .. } => false,
        Expr::Plus(_) => false,
        Expr::Cast { .. } => false,
    }
}
