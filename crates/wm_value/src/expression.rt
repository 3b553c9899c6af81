// The reading of an expression: one cycle over its tree.
ghost use Rattle.std.specs.Prelude.{◌≡◌, [], false};
ghost use Rattle.wm_marks.specs.Marking.{Gives};
ghost use Rattle.wm_program.specs.declared.tree.Comparison as comparisons;
ghost use Rattle.wm_source.specs.Reading.{either_mark, both_mark, equality_mark, relation_mark, sum_mark, product_mark};
ghost use Rattle.wm_source.specs.Written.{written_parts, written_sources};
ghost use Rattle.wm_value.specs.Kinds.{no_number};
ghost use Rattle.wm_value.specs.Values as values;

use crate::form::{Head, Sight, Value};
use crate::kinds::{
    address, array_at, begin_part, condition_of, named, number_of, part_of, part_value, passed_of,
};
use crate::steps::{
    begin_call, chain_value, compare_again, counting_value, equality, function_value,
    operator_value, pointed_value, product_of, product_site, relation, sum_of, sum_site,
};
use crate::widths::{argument_narrowing, head_of, passed_narrowing, slot_at, takes_view, width_at};
use sqlite_items::{Boxed, Items};
use std::alloc::Global;
use wm_lang::{
    EqualityMark, Expr, Part, Position, ProductMark, RelationMark, SpotKind, SumMark, UnaryMark,
};
use wm_marks::Marks;
use wm_ops::{NoMemory, Op};
use wm_program::{Comparison, Condition, Converted, Expr as Tree, Link, Passed, SiteKind};
use wm_scope::{Meaning, Scope, Slot, TokenFault};
use wm_source::{constant, first, width};

#[cycle(value)]
fn disjunction(
    rest: &Items<Part<(), Expr>>,
    alloc: Global,
    scope: &Scope,
    left: Condition,
    marks: &mut Marks,
) -> Result<Value, NoMemory>
    ensures { Gives (values.disjunction_in scope.now left [] (written_parts either_mark rest.now) marks.old) result marks.new }
{
    let mut others = Items::new(alloc);
    for part in rest.as_slice() {
        let read = value(&part.operand, alloc, scope, false, marks)?;
        others.push(condition_of(read, first(&part.operand), marks))?;
    }
    Ok(Value::Truth(Condition::Or {
        first: Boxed::new(alloc, left)?,
        rest: others,
    }))
}

#[cycle(value)]
fn conjunction(
    rest: &Items<Part<(), Expr>>,
    alloc: Global,
    scope: &Scope,
    left: Condition,
    marks: &mut Marks,
) -> Result<Value, NoMemory>
    ensures { Gives (values.conjunction_in scope.now left [] (written_parts both_mark rest.now) marks.old) result marks.new }
{
    let mut others = Items::new(alloc);
    for part in rest.as_slice() {
        let read = value(&part.operand, alloc, scope, false, marks)?;
        others.push(condition_of(read, first(&part.operand), marks))?;
    }
    Ok(Value::Truth(Condition::And {
        first: Boxed::new(alloc, left)?,
        rest: others,
    }))
}

#[cycle(value)]
fn equalities(
    rest: &Items<Part<EqualityMark, Expr>>,
    alloc: Global,
    scope: &Scope,
    at: Position,
    left: Tree,
    marks: &mut Marks,
) -> Result<Value, NoMemory>
    ensures { Gives (values.comparison_in scope.now at left false Comparison.Equal no_number (written_parts equality_mark rest.now) marks.old) result marks.new }
{
    let mut seen = false;
    let mut mark = Comparison::Equal;
    let mut right = Tree::Constant(0);
    for part in rest.as_slice() {
        compare_again(seen, at, marks);
        let read = value(&part.operand, alloc, scope, false, marks)?;
        right = number_of(read, first(&part.operand), marks);
        mark = equality(part.mark);
        seen = true;
    }
    Ok(Value::Truth(Condition::Compare { left, mark, right }))
}

#[cycle(value)]
fn relations(
    rest: &Items<Part<RelationMark, Expr>>,
    alloc: Global,
    scope: &Scope,
    at: Position,
    left: Tree,
    marks: &mut Marks,
) -> Result<Value, NoMemory>
    ensures { Gives (values.comparison_in scope.now at left false Comparison.Equal no_number (written_parts relation_mark rest.now) marks.old) result marks.new }
{
    let mut seen = false;
    let mut mark = Comparison::Equal;
    let mut right = Tree::Constant(0);
    for part in rest.as_slice() {
        compare_again(seen, at, marks);
        let read = value(&part.operand, alloc, scope, false, marks)?;
        right = number_of(read, first(&part.operand), marks);
        mark = relation(part.mark);
        seen = true;
    }
    Ok(Value::Truth(Condition::Compare { left, mark, right }))
}

#[cycle(value)]
fn sums(
    rest: &Items<Part<SumMark, Expr>>,
    alloc: Global,
    scope: &Scope,
    lost: bool,
    left: Tree,
    marks: &mut Marks,
) -> Result<Value, NoMemory>
    ensures { Gives (values.links_in scope.now lost left [] (written_parts sum_mark rest.now) marks.old) result marks.new }
{
    let mut links = Items::new(alloc);
    for part in rest.as_slice() {
        let site = sum_site(part.mark, &part.operand, part.at, marks)?;
        let read = value(&part.operand, alloc, scope, false, marks)?;
        let operand = number_of(read, first(&part.operand), marks);
        let mark = sum_of(part.mark);
        links.push(Link {
            mark,
            site,
            operand,
        })?;
    }
    chain_value(alloc, lost, left, links)
}

#[cycle(value)]
fn products(
    rest: &Items<Part<ProductMark, Expr>>,
    alloc: Global,
    scope: &Scope,
    left: Tree,
    marks: &mut Marks,
) -> Result<Value, NoMemory>
    ensures { Gives (values.links_in scope.now false left [] (written_parts product_mark rest.now) marks.old) result marks.new }
{
    let mut links = Items::new(alloc);
    for part in rest.as_slice() {
        let site = product_site(part.mark, &part.operand, part.at, marks)?;
        let read = value(&part.operand, alloc, scope, false, marks)?;
        let operand = number_of(read, first(&part.operand), marks);
        let mark = product_of(part.mark);
        links.push(Link {
            mark,
            site,
            operand,
        })?;
    }
    chain_value(alloc, false, left, links)
}

/// The part of an array from an index on, which is the one part of a sum.
#[cycle(value)]
fn offset(
    rest: &Items<Part<SumMark, Expr>>,
    alloc: Global,
    scope: &Scope,
    sight: Sight,
    marks: &mut Marks,
) -> Result<Value, NoMemory>
    ensures { Gives (values.offset_in scope.now sight (written_parts sum_mark rest.now) marks.old) result marks.new }
{
    for part in rest.as_slice() {
        let site = marks.site(SiteKind::View, part.at)?;
        let read = value(&part.operand, alloc, scope, false, marks)?;
        let index = number_of(read, first(&part.operand), marks);
        return Ok(part_of(Some(sight), index, site));
    }
    Ok(Value::LostView)
}

/// The arguments of an operator.
#[cycle(value)]
pub fn operands(
    arguments: &Items<Expr>,
    alloc: Global,
    scope: &Scope,
    op: Op,
    marks: &mut Marks,
) -> Result<Items<Converted<Tree>>, NoMemory>
    ensures operands { Gives (values.operands_in scope.now op [] (written_sources arguments.now) marks.old) result marks.new }
{
    let mut found = Items::new(alloc);
    for argument in arguments.as_slice() {
        let narrowing = argument_narrowing(argument, width_at(op, found.len()), scope, marks)?;
        let read = value(argument, alloc, scope, false, marks)?;
        let value = number_of(read, first(argument), marks);
        found.push(Converted { value, narrowing })?;
    }
    Ok(found)
}

/// The arguments of a function.
#[cycle(value)]
pub fn passed(
    arguments: &Items<Expr>,
    alloc: Global,
    scope: &Scope,
    slots: &[Slot],
    marks: &mut Marks,
) -> Result<Items<Passed<Tree>>, NoMemory>
    ensures passed { Gives (values.passed_in scope.now slots.now [] (written_sources arguments.now) marks.old) result marks.new }
{
    let mut found = Items::new(alloc);
    for argument in arguments.as_slice() {
        let slot = slot_at(slots, found.len());
        let narrowing = passed_narrowing(argument, slot, scope, marks)?;
        let read = value(argument, alloc, scope, takes_view(slot), marks)?;
        found.push(passed_of(read, first(argument), slot, narrowing, marks))?;
    }
    Ok(found)
}

/// What an expression is, where a view is wanted or not.
#[cycle(value)]
pub fn value(
    expression: &Expr,
    alloc: Global,
    scope: &Scope,
    wants_view: bool,
    marks: &mut Marks,
) -> Result<Value, NoMemory>
    ensures value { Gives (values.value_in scope.now wants_view expression.now marks.old) result marks.new }
{
    if let Some(z) = constant(expression) {
        return Ok(Value::Number(Tree::Constant(z)));
    }
    match expression {
        Expr::Or(chain) => {
            let read = value(chain.first.get(), alloc, scope, false, marks)?;
            let left = condition_of(read, first(chain.first.get()), marks);
            disjunction(&chain.rest, alloc, scope, left, marks)
        }
        Expr::And(chain) => {
            let read = value(chain.first.get(), alloc, scope, false, marks)?;
            let left = condition_of(read, first(chain.first.get()), marks);
            conjunction(&chain.rest, alloc, scope, left, marks)
        }
        Expr::Equality(chain) => {
            let read = value(chain.first.get(), alloc, scope, false, marks)?;
            let left = number_of(read, first(chain.first.get()), marks);
            equalities(&chain.rest, alloc, scope, chain.at, left, marks)
        }
        Expr::Relation(chain) => {
            let read = value(chain.first.get(), alloc, scope, false, marks)?;
            let left = number_of(read, first(chain.first.get()), marks);
            relations(&chain.rest, alloc, scope, chain.at, left, marks)
        }
        Expr::Sum(chain) => match head_of(wants_view, chain.first.get(), &chain.rest, scope) {
            Head::Number => {
                let read = value(chain.first.get(), alloc, scope, false, marks)?;
                let left = number_of(read, first(chain.first.get()), marks);
                sums(&chain.rest, alloc, scope, false, left, marks)
            }
            Head::Sight(sight) => offset(&chain.rest, alloc, scope, sight, marks),
            Head::Nothing => {
                let read = value(chain.first.get(), alloc, scope, false, marks)?;
                let left = number_of(read, first(chain.first.get()), marks);
                sums(&chain.rest, alloc, scope, true, left, marks)
            }
        },
        Expr::Product(chain) => {
            let read = value(chain.first.get(), alloc, scope, false, marks)?;
            let left = number_of(read, first(chain.first.get()), marks);
            products(&chain.rest, alloc, scope, left, marks)
        }
        Expr::Unary { mark, at, operand } => match mark {
            UnaryMark::Minus => {
                let site = marks.site(SiteKind::Arithmetic, *at)?;
                let read = value(operand.get(), alloc, scope, false, marks)?;
                let number = number_of(read, first(operand.get()), marks);
                Ok(Value::Number(Tree::Negate {
                    operand: Boxed::new(alloc, number)?,
                    site,
                }))
            }
            UnaryMark::Plus => {
                let read = value(operand.get(), alloc, scope, false, marks)?;
                let number = number_of(read, first(operand.get()), marks);
                Ok(Value::Number(Tree::Plus(Boxed::new(alloc, number)?)))
            }
            UnaryMark::Not => {
                let read = value(operand.get(), alloc, scope, false, marks)?;
                let condition = condition_of(read, first(operand.get()), marks);
                Ok(Value::Truth(Condition::Not(Boxed::new(alloc, condition)?)))
            }
        },
        Expr::Cast { to, operand, .. } => {
            let read = value(operand.get(), alloc, scope, false, marks)?;
            let number = number_of(read, first(operand.get()), marks);
            Ok(Value::Number(Tree::Cast {
                to: width(*to),
                operand: Boxed::new(alloc, number)?,
            }))
        }
        Expr::Number { value, .. } => Ok(Value::Number(Tree::Constant(*value))),
        Expr::Spot(spot) => match &spot.kind {
            SpotKind::Scalar { name } => Ok(named(name, scope, marks)),
            SpotKind::Element {
                name,
                bracket,
                index,
            } => {
                let array = array_at(name, name.at, scope, marks);
                let site = marks.site(SiteKind::Index, *bracket)?;
                let read = value(index.get(), alloc, scope, false, marks)?;
                let number = number_of(read, first(index.get()), marks);
                Ok(Value::Number(Tree::Element {
                    array,
                    index: Boxed::new(alloc, number)?,
                    site,
                }))
            }
            SpotKind::Pointed { star, name } => pointed_value(*star, name, alloc, scope, marks),
            SpotKind::Member { .. } => Ok(Value::Nothing),
            SpotKind::MemberElement { .. } => Ok(Value::Nothing),
        },
        Expr::Call(call) => match scope.meaning(call.name.name.bytes()) {
            Meaning::Operator(op) => {
                let site = marks.site(SiteKind::Operator(op), call.name.at)?;
                let arguments = operands(&call.arguments, alloc, scope, op, marks)?;
                Ok(operator_value(op, &call.name, arguments, site, marks))
            }
            Meaning::Counting(count) => {
                let found = passed(&call.arguments, alloc, scope, &[], marks)?;
                Ok(counting_value(count, &call.name, found, marks))
            }
            Meaning::Function(function) => {
                let offset = begin_call(
                    alloc,
                    function,
                    &call.name,
                    call.arguments.as_slice(),
                    scope,
                    marks,
                )?;
                let slots = scope.slots(function);
                let arguments = passed(&call.arguments, alloc, scope, slots, marks)?;
                Ok(function_value(function, &call.name, offset, arguments, scope, marks))
            }
            Meaning::Scalar { .. } => {
                marks.note(TokenFault::WrongKind, call.name.at);
                passed(&call.arguments, alloc, scope, &[], marks)?;
                Ok(Value::Nothing)
            }
            Meaning::Array { .. } => {
                marks.note(TokenFault::WrongKind, call.name.at);
                passed(&call.arguments, alloc, scope, &[], marks)?;
                Ok(Value::Nothing)
            }
            Meaning::Nothing => {
                marks.note(TokenFault::UnknownName, call.name.at);
                passed(&call.arguments, alloc, scope, &[], marks)?;
                Ok(Value::Nothing)
            }
        },
        Expr::Parenthesis { inner, .. } => value(inner.get(), alloc, scope, wants_view, marks),
        Expr::Address { at, spot } => match &spot.kind {
            SpotKind::Scalar { name } => address(*at, name, scope, marks),
            SpotKind::Element {
                name,
                bracket,
                index,
            } => {
                let begun = begin_part(*at, name, *bracket, scope, marks)?;
                let read = value(index.get(), alloc, scope, false, marks)?;
                Ok(part_value(read, first(index.get()), begun, marks))
            }
            SpotKind::Pointed { .. } => Ok(Value::Nothing),
            SpotKind::Member { .. } => Ok(Value::Nothing),
            SpotKind::MemberElement { .. } => Ok(Value::Nothing),
        },
    }
}
