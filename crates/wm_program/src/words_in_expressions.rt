// Counted words in expressions and conditions. Each answer is that of what was looked at before, or that the word of this
// number stands here.
ghost use Rattle.std.specs.Prelude.{◌≡◌, map};
ghost use Rattle.wm_program.specs.Trees.{expression_of, test_of};
ghost use Rattle.wm_program.specs.UsedParts.{operands_of, passed_in, plain_link};
ghost use Rattle.wm_program.specs.Used.{is_word, in_expression, in_arguments, in_links, in_test, in_tests};

use crate::tree::{Condition, Converted, Expr, Link, Passed, View};
use sqlite_items::{Boxed, Items};
use wm_ops::{Counted, counted_number};

/// Whether the word is this one.
pub(crate) fn is_word(word: usize, this: Counted, found: bool) -> bool
    ensures { result ≡ is_word word this found }
{
    found || counted_number(this) == word
}

#[cycle(expressions)]
fn in_operands(arguments: &Items<Converted<Expr>>, word: usize, found: bool) -> bool
    ensures { result ≡ in_arguments word (operands_of arguments.now) found }
{
    let mut found = found;
    for argument in arguments.as_slice() {
        found = in_expression(&argument.value, word, found);
    }
    found
}

#[cycle(expressions)]
fn in_all_passed(arguments: &Items<Passed<Expr>>, word: usize, found: bool) -> bool
    ensures { result ≡ in_arguments word (passed_in arguments.now) found }
{
    let mut found = found;
    for argument in arguments.as_slice() {
        match argument {
            Passed::Value(argument) => found = in_expression(&argument.value, word, found),
            Passed::View(View::Whole(_)) => {}
            Passed::View(View::From { index, .. }) => found = in_expression(index, word, found),
        }
    }
    found
}

#[cycle(expressions)]
fn in_links(rest: &Items<Link<Expr>>, word: usize, found: bool) -> bool
    ensures { result ≡ in_links word (map plain_link rest.now) found }
{
    let mut found = found;
    for link in rest.as_slice() {
        found = in_expression(&link.operand, word, found);
    }
    found
}

#[cycle(expressions)]
pub(crate) fn in_expression(x: &Expr, word: usize, found: bool) -> bool
    ensures { result ≡ in_expression word (expression_of x.now) found }
{
    match x {
        Expr::Constant(_) => found,
        Expr::Scalar(_) => found,
        Expr::Element { index, .. } => in_expression(index.get(), word, found),
        Expr::Operator { op, arguments, .. } => {
            let found = is_word(word, Counted::Operator(*op), found);
            in_operands(arguments, word, found)
        }
        Expr::Call(call) => in_all_passed(&call.arguments, word, found),
        Expr::Chain { first, rest } => {
            let found = in_expression(first.get(), word, found);
            in_links(rest, word, found)
        }
        Expr::Negate { operand, .. } => in_expression(operand.get(), word, found),
        Expr::Plus(operand) => in_expression(operand.get(), word, found),
        Expr::Cast { operand, .. } => in_expression(operand.get(), word, found),
    }
}

#[cycle(conditions)]
fn in_conditions(rest: &Items<Condition>, word: usize, found: bool) -> bool
    ensures { result ≡ in_tests word (map test_of rest.now) found }
{
    let mut found = found;
    for condition in rest.as_slice() {
        found = in_condition(condition, word, found);
    }
    found
}

#[cycle(conditions)]
pub(crate) fn in_condition(condition: &Condition, word: usize, found: bool) -> bool
    ensures { result ≡ in_test word (test_of condition.now) found }
{
    match condition {
        Condition::Or { first, rest } => {
            let found = in_condition(first.get(), word, found);
            in_conditions(rest, word, found)
        }
        Condition::And { first, rest } => {
            let found = in_condition(first.get(), word, found);
            in_conditions(rest, word, found)
        }
        Condition::Not(condition) => in_condition(condition.get(), word, found),
        Condition::Compare { left, right, .. } => {
            let found = in_expression(left, word, found);
            in_expression(right, word, found)
        }
        Condition::Truth(x) => in_expression(x, word, found),
    }
}
