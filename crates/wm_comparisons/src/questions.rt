// What is compared: `sub(a, b)` and `L_sub(a, b)` with 0 are the operator and then a comparison of a and b.
ghost use Rattle.std.specs.Prelude.{◌≡◌};
ghost use Rattle.wm_flow.specs.Tests as tests;
ghost use Rattle.wm_program.specs.Trees.{expression_of};
ghost use Rattle.wm_comparisons.specs.Seen.{subtraction_in, compared_of, mark_in};

use crate::marks::from_right;
use crate::subtractions::subtraction;
use wm_applied::{Applied, is_nought};
use wm_program::{Comparison, Expr};

/// What a condition compares.
#[derive(Clone, Copy)]
pub enum Compared<'x> {
    /// Two numbers.
    Plainly {
        left: &'x Expr,
        mark: Comparison,
        right: &'x Expr,
    },
    /// A number with 0: whether they differ.
    Number(&'x Expr),
    /// The arguments of a subtraction, once it has been applied.
    Applied {
        applied: Applied<'x>,
        mark: Comparison,
    },
}

fn or_applied<'x>(
    it: Option<Applied<'x>>,
    mark: Comparison,
    otherwise: Compared<'x>,
) -> Compared<'x>
    ensures { compared_of result ≡ tests.applied (subtraction_in it.entry) mark (compared_of otherwise.entry) }
{
    match it {
        Some(applied) => Compared::Applied { applied, mark },
        None => otherwise,
    }
}

/// What a comparison of two expressions compares.
#[tactic(auto, unfolding(wm_flow::specs::Tests::compared))]
pub fn compare<'x>(left: &'x Expr, mark: Comparison, right: &'x Expr) -> Compared<'x>
    ensures compared { compared_of result ≡ tests.compared (expression_of left.now) mark (expression_of right.now) }
{
    let plainly = Compared::Plainly { left, mark, right };
    if is_nought(right) {
        return or_applied(subtraction(left), mark, plainly);
    }
    if is_nought(left) {
        return or_applied(subtraction(right), from_right(mark), plainly);
    }
    plainly
}

/// What a number as a condition compares.
#[tactic(auto, unfolding(wm_flow::specs::Tests::compared_number))]
pub fn compare_number<'x>(x: &'x Expr) -> Compared<'x>
    ensures compared { compared_of result ≡ tests.compared_number (expression_of x.now) }
{
    or_applied(subtraction(x), Comparison::NotEqual, Compared::Number(x))
}

/// How the two sides are compared.
pub fn mark_of(it: Compared<'_>) -> Comparison
    ensures mark { result ≡ mark_in (compared_of it.entry) }
{
    match it {
        Compared::Plainly { mark, .. } => mark,
        Compared::Number(_) => Comparison::NotEqual,
        Compared::Applied { mark, .. } => mark,
    }
}
