// Calls of functions in expressions.
ghost use Rattle.std.specs.Prelude.{◌≡◌, map};
ghost use Rattle.wm_flow.specs.Yields as yields;
ghost use Rattle.wm_program.specs.Trees.{expression_of};
ghost use Rattle.wm_program.specs.UsedParts.{operands_of, plain_link};
ghost use Rattle.wm_coming.specs.Chains.{calls_links};

use sqlite_items::{Boxed, Items};
use wm_program::{Converted, Expr, Link};

#[cycle(calls)]
fn calls_operands(arguments: &Items<Converted<Expr>>) -> bool
    ensures { result ≡ yields.calls_among (operands_of arguments.now) }
{
    for argument in arguments.as_slice() {
        if calls(&argument.value) {
            return true;
        }
    }
    false
}

#[cycle(calls)]
fn calls_links(rest: &Items<Link<Expr>>) -> bool
    ensures { result ≡ calls_links (map plain_link rest.now) }
{
    for link in rest.as_slice() {
        if calls(&link.operand) {
            return true;
        }
    }
    false
}

/// Whether a function is called while an expression is evaluated.
#[cycle(calls)]
pub(crate) fn calls(x: &Expr) -> bool
    ensures { result ≡ yields.calls (expression_of x.now) }
{
    match x {
        Expr::Constant(_) => false,
        Expr::Scalar(_) => false,
        Expr::Element { index, .. } => calls(index.get()),
        Expr::Operator { arguments, .. } => calls_operands(arguments),
        Expr::Call(_) => true,
        Expr::Chain { first, rest } => {
            if calls(first.get()) {
                return true;
            }
            calls_links(rest)
        }
        Expr::Negate { operand, .. } => calls(operand.get()),
        Expr::Plus(operand) => calls(operand.get()),
        Expr::Cast { operand, .. } => calls(operand.get()),
    }
}
