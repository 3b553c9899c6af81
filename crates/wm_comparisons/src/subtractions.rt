// Subtractions, whose result compared with 0 is a comparison of their arguments.
ghost use Rattle.std.specs.Prelude.{◌≡◌};
ghost use Rattle.wm_flow.specs.Tests as tests;
ghost use Rattle.wm_program.specs.Trees.{expression_of};
ghost use Rattle.wm_comparisons.specs.Seen.{is_subtraction, subtraction_in};

use wm_applied::{Applied, operator_of};
use wm_ops::Op;
use wm_program::Expr;

fn is_subtraction(op: Op) -> bool
    ensures { result ≡ is_subtraction op }
{
    match op {
        Op::Sub => true,
        Op::LSub => true,
        _ => false,
    }
}

/// The subtraction that an expression is.
#[tactic(auto, using(crate::proofs::Subtracted::from_operator))]
pub(crate) fn subtraction<'x>(x: &'x Expr) -> Option<Applied<'x>>
    ensures { subtraction_in result ≡ tests.subtraction (expression_of x.now) }
{
    match operator_of(x) {
        Some(applied) => {
            if is_subtraction(applied.op) {
                return Some(applied);
            }
            None
        }
        None => None,
    }
}
