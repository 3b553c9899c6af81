// Operators on arguments.
ghost use Rattle.std.specs.Prelude.{◌≡◌};
ghost use Rattle.wm_program.specs.Trees.{expression_of};
ghost use Rattle.wm_applied.specs.Applications.{operator_in, applied_in};

use sqlite_items::{Boxed, Items};
use wm_ops::Op;
use wm_program::{Converted, Expr};

/// An operator with its arguments and its site.
#[derive(Clone, Copy)]
pub struct Applied<'x> {
    pub op: Op,
    pub arguments: &'x Items<Converted<Expr>>,
    pub site: u32,
}

/// The operator that an expression is. A chain without operators behind its first part is that part.
#[tactic(auto, using(crate::proofs::FirstParts::operator_alone, crate::proofs::FirstParts::operator_among))]
pub fn operator_of<'x>(x: &'x Expr) -> Option<Applied<'x>>
    ensures applied { applied_in result ≡ operator_in (expression_of x.now) }
{
    match x {
        Expr::Constant(_) => None,
        Expr::Scalar(_) => None,
        Expr::Element { .. } => None,
        Expr::Operator {
            op,
            arguments,
            site,
        } => Some(Applied {
            op: *op,
            arguments,
            site: *site,
        }),
        Expr::Call(_) => None,
        Expr::Chain { first, rest } => match rest.as_slice().split_first() {
            Some(_) => None,
            None => operator_of(first.get()),
        },
        Expr::Negate { .. } => None,
        Expr::Plus(_) => None,
        Expr::Cast { .. } => None,
    }
}
