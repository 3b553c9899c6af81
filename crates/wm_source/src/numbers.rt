// The numbers that the number tokens of a body stand for, in their order.
ghost use Rattle.std.specs.Prelude.{◌≡◌, OnOk};
ghost use Rattle.wm_source.specs.Numbers.{numbers_in_parts, numbers_in_sources, numbers_of, numbers_of_maybe, numbers_of_all, numbers_of_spot, numbers_of_simple, numbers_of_simples, numbers_of_value, numbers_of_values, numbers_of_declarator, numbers_of_declarators, numbers_of_statement, numbers_of_items};
ghost use Rattle.wm_source.specs.Reading.{either_mark, both_mark, equality_mark, relation_mark, sum_mark, product_mark};
ghost use Rattle.wm_source.specs.Written.{written_parts, written_sources};

use sqlite_items::{Boxed, Items};
use wm_lang::{
    BlockItem, Declarator, EqualityMark, Expr, Initializer, InitializerList, Part, ProductMark,
    RelationMark, Simple, SpotKind, Statement, SumMark,
};
use wm_ops::{List, NoMemory};

#[cycle(numbers)]
fn logical_numbers(rest: &Items<Part<(), Expr>>, seen: &mut List<i64>) -> Result<(), NoMemory>
    ensures numbers { OnOk result (seen.new ≡ numbers_in_parts (written_parts either_mark rest.now) seen.old) }
{
    for part in rest.as_slice() {
        numbers(&part.operand, seen)?;
    }
    Ok(())
}

#[cycle(numbers)]
fn conjunction_numbers(rest: &Items<Part<(), Expr>>, seen: &mut List<i64>) -> Result<(), NoMemory>
    ensures numbers { OnOk result (seen.new ≡ numbers_in_parts (written_parts both_mark rest.now) seen.old) }
{
    for part in rest.as_slice() {
        numbers(&part.operand, seen)?;
    }
    Ok(())
}

#[cycle(numbers)]
fn equality_numbers(
    rest: &Items<Part<EqualityMark, Expr>>,
    seen: &mut List<i64>,
) -> Result<(), NoMemory>
    ensures numbers { OnOk result (seen.new ≡ numbers_in_parts (written_parts equality_mark rest.now) seen.old) }
{
    for part in rest.as_slice() {
        numbers(&part.operand, seen)?;
    }
    Ok(())
}

#[cycle(numbers)]
fn relation_numbers(
    rest: &Items<Part<RelationMark, Expr>>,
    seen: &mut List<i64>,
) -> Result<(), NoMemory>
    ensures numbers { OnOk result (seen.new ≡ numbers_in_parts (written_parts relation_mark rest.now) seen.old) }
{
    for part in rest.as_slice() {
        numbers(&part.operand, seen)?;
    }
    Ok(())
}

#[cycle(numbers)]
fn sum_numbers(rest: &Items<Part<SumMark, Expr>>, seen: &mut List<i64>) -> Result<(), NoMemory>
    ensures numbers { OnOk result (seen.new ≡ numbers_in_parts (written_parts sum_mark rest.now) seen.old) }
{
    for part in rest.as_slice() {
        numbers(&part.operand, seen)?;
    }
    Ok(())
}

#[cycle(numbers)]
fn product_numbers(
    rest: &Items<Part<ProductMark, Expr>>,
    seen: &mut List<i64>,
) -> Result<(), NoMemory>
    ensures numbers { OnOk result (seen.new ≡ numbers_in_parts (written_parts product_mark rest.now) seen.old) }
{
    for part in rest.as_slice() {
        numbers(&part.operand, seen)?;
    }
    Ok(())
}

#[cycle(numbers)]
fn argument_numbers(arguments: &Items<Expr>, seen: &mut List<i64>) -> Result<(), NoMemory>
    ensures numbers { OnOk result (seen.new ≡ numbers_in_sources (written_sources arguments.now) seen.old) }
{
    for argument in arguments.as_slice() {
        numbers(argument, seen)?;
    }
    Ok(())
}

/// Puts the numbers of an expression at the end.
#[cycle(numbers)]
fn numbers(expression: &Expr, seen: &mut List<i64>) -> Result<(), NoMemory>
    ensures numbers { OnOk result (seen.new ≡ numbers_of expression.now seen.old) }
{
    match expression {
        Expr::Or(chain) => {
            numbers(chain.first.get(), seen)?;
            logical_numbers(&chain.rest, seen)
        }
        Expr::And(chain) => {
            numbers(chain.first.get(), seen)?;
            conjunction_numbers(&chain.rest, seen)
        }
        Expr::Equality(chain) => {
            numbers(chain.first.get(), seen)?;
            equality_numbers(&chain.rest, seen)
        }
        Expr::Relation(chain) => {
            numbers(chain.first.get(), seen)?;
            relation_numbers(&chain.rest, seen)
        }
        Expr::Sum(chain) => {
            numbers(chain.first.get(), seen)?;
            sum_numbers(&chain.rest, seen)
        }
        Expr::Product(chain) => {
            numbers(chain.first.get(), seen)?;
            product_numbers(&chain.rest, seen)
        }
        Expr::Unary { operand, .. } => numbers(operand.get(), seen),
        Expr::Cast { operand, .. } => numbers(operand.get(), seen),
        Expr::Number { value, .. } => seen.push(*value),
        Expr::Spot(spot) => match &spot.kind {
            SpotKind::Element { index, .. } => numbers(index.get(), seen),
            SpotKind::Scalar { .. } => Ok(()),
            SpotKind::Pointed { .. } => Ok(()),
            SpotKind::Member { .. } => Ok(()),
            SpotKind::MemberElement { .. } => Ok(()),
        },
        Expr::Call(call) => argument_numbers(&call.arguments, seen),
        Expr::Parenthesis { inner, .. } => numbers(inner.get(), seen),
        Expr::Address { spot, .. } => match &spot.kind {
            SpotKind::Element { index, .. } => numbers(index.get(), seen),
            SpotKind::Scalar { .. } => Ok(()),
            SpotKind::Pointed { .. } => Ok(()),
            SpotKind::Member { .. } => Ok(()),
            SpotKind::MemberElement { .. } => Ok(()),
        },
    }
}

fn maybe_numbers(expression: &Option<Expr>, seen: &mut List<i64>) -> Result<(), NoMemory>
    ensures numbers { OnOk result (seen.new ≡ numbers_of_maybe expression.now seen.old) }
{
    match expression {
        None => Ok(()),
        Some(expression) => numbers(expression, seen),
    }
}

fn all_numbers(expressions: &[Expr], seen: &mut List<i64>) -> Result<(), NoMemory>
    ensures numbers { OnOk result (seen.new ≡ numbers_of_all expressions.now seen.old) }
{
    for expression in expressions {
        numbers(expression, seen)?;
    }
    Ok(())
}

fn spot_numbers(kind: &SpotKind<Boxed<Expr>>, seen: &mut List<i64>) -> Result<(), NoMemory>
    ensures numbers { OnOk result (seen.new ≡ numbers_of_spot kind.now seen.old) }
{
    match kind {
        SpotKind::Element { index, .. } => numbers(index.get(), seen),
        SpotKind::Scalar { .. } => Ok(()),
        SpotKind::Pointed { .. } => Ok(()),
        SpotKind::Member { .. } => Ok(()),
        SpotKind::MemberElement { .. } => Ok(()),
    }
}

fn simple_numbers(simple: &Simple, seen: &mut List<i64>) -> Result<(), NoMemory>
    ensures numbers { OnOk result (seen.new ≡ numbers_of_simple simple.now seen.old) }
{
    match simple {
        Simple::Assign { spot, value, .. } => {
            spot_numbers(&spot.kind, seen)?;
            numbers(value, seen)
        }
        Simple::StepAfter { spot, .. } => spot_numbers(&spot.kind, seen),
        Simple::StepBefore { spot, .. } => spot_numbers(&spot.kind, seen),
        Simple::Call(call) => all_numbers(call.arguments.as_slice(), seen),
    }
}

fn simples_numbers(simples: &[Simple], seen: &mut List<i64>) -> Result<(), NoMemory>
    ensures numbers { OnOk result (seen.new ≡ numbers_of_simples simples.now seen.old) }
{
    for simple in simples {
        simple_numbers(simple, seen)?;
    }
    Ok(())
}

fn value_numbers(initial: &Option<Initializer>, seen: &mut List<i64>) -> Result<(), NoMemory>
    ensures numbers { OnOk result (seen.new ≡ numbers_of_value initial.now seen.old) }
{
    match initial {
        None => Ok(()),
        Some(initial) => numbers(&initial.value, seen),
    }
}

fn values_numbers(initial: &Option<InitializerList>, seen: &mut List<i64>) -> Result<(), NoMemory>
    ensures numbers { OnOk result (seen.new ≡ numbers_of_values initial.now seen.old) }
{
    match initial {
        None => Ok(()),
        Some(initial) => all_numbers(initial.values.as_slice(), seen),
    }
}

fn declarator_numbers(declarator: &Declarator, seen: &mut List<i64>) -> Result<(), NoMemory>
    ensures numbers { OnOk result (seen.new ≡ numbers_of_declarator declarator.now seen.old) }
{
    match declarator {
        Declarator::Scalar { initial, .. } => value_numbers(initial, seen),
        Declarator::Array {
            length,
            initial,
            ..
        } => {
            maybe_numbers(length, seen)?;
            values_numbers(initial, seen)
        }
    }
}

fn declarators_numbers(declarators: &[Declarator], seen: &mut List<i64>) -> Result<(), NoMemory>
    ensures numbers { OnOk result (seen.new ≡ numbers_of_declarators declarators.now seen.old) }
{
    for declarator in declarators {
        declarator_numbers(declarator, seen)?;
    }
    Ok(())
}

/// Puts the numbers of a body's number tokens at the end.
#[cycle(body)]
pub fn body_numbers(
    items: &Items<BlockItem<Statement>>,
    seen: &mut List<i64>,
) -> Result<(), NoMemory>
    ensures numbers { OnOk result (seen.new ≡ numbers_of_items items.now seen.old) }
{
    for item in items.as_slice() {
        match item {
            BlockItem::Declaration(declaration) => {
                declarators_numbers(declaration.declarators.as_slice(), seen)?;
            }
            BlockItem::Statement(statement) => statement_numbers(statement, seen)?,
        }
    }
    Ok(())
}

#[cycle(body)]
fn statement_numbers(statement: &Statement, seen: &mut List<i64>) -> Result<(), NoMemory>
    ensures numbers { OnOk result (seen.new ≡ numbers_of_statement statement.now seen.old) }
{
    match statement {
        Statement::Block(block) => body_numbers(&block.items, seen),
        Statement::Empty { .. } => Ok(()),
        Statement::Simple(simple) => simple_numbers(simple, seen),
        Statement::If {
            condition,
            then,
            otherwise,
            ..
        } => {
            numbers(condition, seen)?;
            statement_numbers(then.get(), seen)?;
            match otherwise {
                None => Ok(()),
                Some(otherwise) => statement_numbers(otherwise.body.get(), seen),
            }
        }
        Statement::For {
            begin,
            condition,
            step,
            body,
            ..
        } => {
            simples_numbers(begin.as_slice(), seen)?;
            maybe_numbers(condition, seen)?;
            simples_numbers(step.as_slice(), seen)?;
            statement_numbers(body.get(), seen)
        }
        Statement::While {
            condition,
            body,
            ..
        } => {
            numbers(condition, seen)?;
            statement_numbers(body.get(), seen)
        }
        Statement::Do {
            body,
            condition,
            ..
        } => {
            statement_numbers(body.get(), seen)?;
            numbers(condition, seen)
        }
        Statement::Break { .. } => Ok(()),
        Statement::Continue { .. } => Ok(()),
        Statement::Return { value, .. } => maybe_numbers(value, seen),
    }
}
