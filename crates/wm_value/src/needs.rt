// Expressions where a number or a condition is needed, and calls by themselves.
ghost use Rattle.wm_marks.specs.Marking.{Gives};
ghost use Rattle.wm_value.specs.Needs as needs;

use crate::expression::{operands, passed, value};
use crate::form::Value;
use crate::kinds::{condition_of, number_of};
use crate::steps::{begin_call, counting_value, function_value, operator_value};
use std::alloc::Global;
use wm_lang::{Call, Expr};
use wm_marks::Marks;
use wm_ops::NoMemory;
use wm_program::{Condition, Expr as Tree, SiteKind};
use wm_scope::{Meaning, Scope, TokenFault};
use wm_source::first;

#[tactic(auto, unfolding(crate::specs::Needs::number_in))]
/// The number that an expression is to be.
pub fn number(
    expression: &Expr,
    alloc: Global,
    scope: &Scope,
    marks: &mut Marks,
) -> Result<Tree, NoMemory>
    ensures number { Gives (needs.number_in scope.now expression.now marks.old) result marks.new }
{
    let read = value(expression, alloc, scope, false, marks)?;
    Ok(number_of(read, first(expression), marks))
}

#[tactic(auto, unfolding(crate::specs::Needs::condition_in))]
/// The condition that an expression is to be.
pub fn condition(
    expression: &Expr,
    alloc: Global,
    scope: &Scope,
    marks: &mut Marks,
) -> Result<Condition, NoMemory>
    ensures condition { Gives (needs.condition_in scope.now expression.now marks.old) result marks.new }
{
    let read = value(expression, alloc, scope, false, marks)?;
    Ok(condition_of(read, first(expression), marks))
}

#[tactic(auto, unfolding(crate::specs::Needs::call_in))]
/// A call, also one that gives no value.
pub fn call(
    call: &Call<Expr>,
    alloc: Global,
    scope: &Scope,
    marks: &mut Marks,
) -> Result<Value, NoMemory>
    ensures call { Gives (needs.call_in scope.now call.now marks.old) result marks.new }
{
    match scope.meaning(call.name.name.bytes()) {
        Meaning::Operator(op) => {
            let site = marks.site(SiteKind::Operator(op), call.name.at)?;
            let arguments = operands(&call.arguments, alloc, scope, op, marks)?;
            Ok(operator_value(op, &call.name, arguments, site, marks))
        }
        Meaning::Counting(count) => {
            let found = passed(&call.arguments, alloc, scope, &[], marks)?;
            Ok(counting_value(count, &call.name, found, marks))
        }
        Meaning::Function(function) => {
            let offset = begin_call(
                alloc,
                function,
                &call.name,
                call.arguments.as_slice(),
                scope,
                marks,
            )?;
            let slots = scope.slots(function);
            let arguments = passed(&call.arguments, alloc, scope, slots, marks)?;
            Ok(function_value(function, &call.name, offset, arguments, scope, marks))
        }
        Meaning::Scalar { .. } => {
            marks.note(TokenFault::WrongKind, call.name.at);
            passed(&call.arguments, alloc, scope, &[], marks)?;
            Ok(Value::Nothing)
        }
        Meaning::Array { .. } => {
            marks.note(TokenFault::WrongKind, call.name.at);
            passed(&call.arguments, alloc, scope, &[], marks)?;
            Ok(Value::Nothing)
        }
        Meaning::Nothing => {
            marks.note(TokenFault::UnknownName, call.name.at);
            passed(&call.arguments, alloc, scope, &[], marks)?;
            Ok(Value::Nothing)
        }
    }
}
