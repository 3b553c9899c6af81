// The small steps of the reading of chains and calls.
ghost use Rattle.std.specs.Prelude.{◌≡◌, IfOk};
ghost use Rattle.wm_marks.specs.Marking.{Gives};
ghost use Rattle.wm_source.specs.Constants.{constant_of};
ghost use Rattle.wm_source.specs.Reading.{equality_mark, relation_mark, sum_mark, product_mark};
ghost use Rattle.wm_source.specs.Written.{written_sources};
ghost use Rattle.wm_value.specs.Values as values;

use crate::form::Value;
use crate::kinds::pointed;
use crate::widths::handed;
use sqlite_items::{Boxed, Items};
use std::alloc::Global;
use wm_lang::{EqualityMark, Expr, Identifier, Position, ProductMark, RelationMark, SumMark};
use wm_marks::Marks;
use wm_ops::{CountCall, NoMemory, Op, Width, arity};
use wm_program::{
    Call as Invocation, Comparison, Converted, Expr as Tree, Link, Passed, PlainMark, Simple,
    SiteKind,
};
use wm_scope::{CallPlace, Scope, TokenFault};
use wm_source::constant;

pub fn equality(mark: EqualityMark) -> Comparison
    ensures { result ≡ values.comparison_of (equality_mark mark) }
{
    match mark {
        EqualityMark::Equal => Comparison::Equal,
        EqualityMark::NotEqual => Comparison::NotEqual,
    }
}

pub fn relation(mark: RelationMark) -> Comparison
    ensures { result ≡ values.comparison_of (relation_mark mark) }
{
    match mark {
        RelationMark::Less => Comparison::Less,
        RelationMark::LessEqual => Comparison::LessEqual,
        RelationMark::Greater => Comparison::Greater,
        RelationMark::GreaterEqual => Comparison::GreaterEqual,
    }
}

pub fn sum_of(mark: SumMark) -> PlainMark
    ensures { result ≡ values.plain_of (sum_mark mark) }
{
    match mark {
        SumMark::Plus => PlainMark::Plus,
        SumMark::Minus => PlainMark::Minus,
    }
}

pub fn product_of(mark: ProductMark) -> PlainMark
    ensures { result ≡ values.plain_of (product_mark mark) }
{
    match mark {
        ProductMark::Times => PlainMark::Times,
        ProductMark::Divide => PlainMark::Divide,
    }
}

#[tactic(auto, unfolding(crate::specs::Values::link_site))]
pub fn sum_site(
    mark: SumMark,
    operand: &Expr,
    at: Position,
    marks: &mut Marks,
) -> Result<u32, NoMemory>
    ensures { Gives (values.link_site (sum_mark mark) (constant_of operand.now) at marks.old) result marks.new }
{
    match mark {
        SumMark::Plus => marks.site(SiteKind::Arithmetic, at),
        SumMark::Minus => marks.site(SiteKind::Arithmetic, at),
    }
}

fn divide_by(divisor: Option<i64>, at: Position, marks: &mut Marks)
    ensures { marks.new ≡ values.divided_by divisor at marks.old }
{
    match divisor {
        None => marks.note(TokenFault::NotConstant, at),
        Some(z) => {
            if z == 0 {
                marks.note(TokenFault::NotConstant, at);
            }
        }
    }
}

#[tactic(auto, unfolding(crate::specs::Values::link_site))]
pub fn product_site(
    mark: ProductMark,
    operand: &Expr,
    at: Position,
    marks: &mut Marks,
) -> Result<u32, NoMemory>
    ensures { Gives (values.link_site (product_mark mark) (constant_of operand.now) at marks.old) result marks.new }
{
    match mark {
        ProductMark::Times => marks.site(SiteKind::Arithmetic, at),
        ProductMark::Divide => {
            divide_by(constant(operand), at, marks);
            marks.site(SiteKind::Arithmetic, at)
        }
    }
}

/// A comparison that is compared again stands where a number is needed.
pub fn compare_again(seen: bool, at: Position, marks: &mut Marks)
    ensures { marks.new ≡ values.again seen at marks.old }
{
    if seen {
        marks.note(TokenFault::WrongKind, at);
    }
}

pub fn chain_value(
    alloc: Global,
    lost: bool,
    first: Tree,
    rest: Items<Link<Tree>>,
) -> Result<Value, NoMemory>
    ensures { IfOk result (λ value. value ≡ values.chain_value lost first rest) }
{
    if lost {
        return Ok(Value::Nothing);
    }
    let first = Boxed::new(alloc, first)?;
    Ok(Value::Number(Tree::Chain { first, rest }))
}

fn count_arguments(found: usize, wanted: usize, at: Position, marks: &mut Marks)
    ensures { marks.new ≡ values.miscounted found wanted at marks.old }
{
    if found != wanted {
        marks.note(TokenFault::WrongCount, at);
    }
}

fn call_value(width: Option<Width>, call: Invocation<Tree>) -> Value
    ensures { result ≡ values.call_value width call }
{
    match width {
        None => Value::Effect(Simple::Evaluate(Tree::Call(call))),
        Some(_) => Value::Number(Tree::Call(call)),
    }
}

#[tactic(auto, unfolding(crate::specs::Values::begun_call))]
/// Tells a call of a function, and gives what is added to the instance at it.
pub fn begin_call(
    alloc: Global,
    function: u32,
    name: &Identifier,
    arguments: &[Expr],
    scope: &Scope,
    marks: &mut Marks,
) -> Result<u32, NoMemory>
    ensures { Gives (values.begun_call scope.now function name.now (written_sources arguments.now) marks.old) result marks.new }
{
    let views = handed(alloc, arguments, scope.slots(function), scope)?;
    let offset = scope.offset(marks.calls.items().len());
    marks.call(CallPlace {
        function,
        at: name.at,
        views,
    })?;
    Ok(offset)
}

/// `*p`
#[tactic(auto, unfolding(crate::specs::Values::pointed_value))]
pub fn pointed_value(
    star: Position,
    name: &Identifier,
    alloc: Global,
    scope: &Scope,
    marks: &mut Marks,
) -> Result<Value, NoMemory>
    ensures { Gives (values.pointed_value scope.now star name.now marks.old) result marks.new }
{
    let (array, site) = pointed(star, name, scope, marks)?;
    let index = Boxed::new(alloc, Tree::Constant(0))?;
    Ok(Value::Number(Tree::Element { array, index, site }))
}

/// A call of an operator, whose arguments are read.
#[tactic(auto, unfolding(crate::specs::Values::operator_value))]
pub fn operator_value(
    op: Op,
    name: &Identifier,
    arguments: Items<Converted<Tree>>,
    site: u32,
    marks: &mut Marks,
) -> Value
    ensures { values.operator_value op name.now arguments site marks.old ≡ (result, marks.new) }
{
    count_arguments(arguments.len(), arity(op), name.at, marks);
    Value::Number(Tree::Operator {
        op,
        arguments,
        site,
    })
}

/// A counting call, whose arguments are read.
#[tactic(auto, unfolding(crate::specs::Values::counting_value))]
pub fn counting_value(
    call: CountCall,
    name: &Identifier,
    arguments: Items<Passed<Tree>>,
    marks: &mut Marks,
) -> Value
    ensures { values.counting_value call name.now arguments marks.old ≡ (result, marks.new) }
{
    count_arguments(arguments.len(), 0, name.at, marks);
    Value::Effect(Simple::Count(call))
}

/// A call of a function, whose arguments are read.
#[tactic(auto, unfolding(crate::specs::Values::function_value))]
pub fn function_value(
    function: u32,
    name: &Identifier,
    offset: u32,
    arguments: Items<Passed<Tree>>,
    scope: &Scope,
    marks: &mut Marks,
) -> Value
    ensures { values.function_value scope.now function name.now offset arguments marks.old ≡ (result, marks.new) }
{
    count_arguments(arguments.len(), scope.slots(function).len(), name.at, marks);
    let call = Invocation {
        function,
        offset,
        arguments,
    };
    call_value(scope.result(function), call)
}
