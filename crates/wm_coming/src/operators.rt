// Calls of operators in expressions.
ghost use Rattle.std.specs.Prelude.{◌≡◌, map};
ghost use Rattle.wm_flow.specs.Yields as yields;
ghost use Rattle.wm_program.specs.Trees.{expression_of};
ghost use Rattle.wm_program.specs.UsedParts.{passed_in, plain_link};
ghost use Rattle.wm_coming.specs.Chains.{operates_links};

use sqlite_items::{Boxed, Items};
use wm_program::{Expr, Link, Passed, View};

#[cycle(operates)]
fn operates_passed(arguments: &Items<Passed<Expr>>) -> bool
    ensures { result ≡ yields.operates_among (passed_in arguments.now) }
{
    for argument in arguments.as_slice() {
        match argument {
            Passed::Value(argument) => {
                if operates(&argument.value) {
                    return true;
                }
            }
            Passed::View(View::Whole(_)) => {}
            Passed::View(View::From { index, .. }) => {
                if operates(index) {
                    return true;
                }
            }
        }
    }
    false
}

#[cycle(operates)]
fn operates_links(rest: &Items<Link<Expr>>) -> bool
    ensures { result ≡ operates_links (map plain_link rest.now) }
{
    for link in rest.as_slice() {
        if operates(&link.operand) {
            return true;
        }
    }
    false
}

/// Whether an operator is called while an expression is evaluated.
#[cycle(operates)]
pub(crate) fn operates(x: &Expr) -> bool
    ensures { result ≡ yields.operates (expression_of x.now) }
{
    match x {
        Expr::Constant(_) => false,
        Expr::Scalar(_) => false,
        Expr::Element { index, .. } => operates(index.get()),
        Expr::Operator { .. } => true,
        Expr::Call(call) => operates_passed(&call.arguments),
        Expr::Chain { first, rest } => {
            if operates(first.get()) {
                return true;
            }
            operates_links(rest)
        }
        Expr::Negate { operand, .. } => operates(operand.get()),
        Expr::Plus(operand) => operates(operand.get()),
        Expr::Cast { operand, .. } => operates(operand.get()),
    }
}
