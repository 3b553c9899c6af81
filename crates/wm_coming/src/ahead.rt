// What comes.
ghost use Rattle.std.specs.Prelude.{◌≡◌};
ghost use Rattle.wm_flow.specs.Yields as yields;
ghost use Rattle.wm_program.specs.Trees.{expression_of};

use crate::functions::calls;
use crate::operators::operates;
use wm_flow::Coming;
use wm_program::Expr;

/// Whether a function and whether an operator is called while an expression is evaluated.
pub fn coming(x: &Expr) -> Coming
    ensures { result ≡ yields.coming (expression_of x.now) }
{
    Coming {
        call: calls(x),
        operator: operates(x),
    }
}

/// An operator itself, for its own arguments.
pub fn own_operator() -> Coming
    ensures { result ≡ yields.own_operator }
{
    Coming {
        call: false,
        operator: true,
    }
}
