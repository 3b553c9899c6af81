// The assignments of a scalar in the body of an innermost loop whose value is an operator on this scalar.
ghost use Rattle.std.specs.Prelude.{◌≡◌};

use sqlite_items::{Boxed, Items};
use std::alloc::Global;
use wm_ops::{NoMemory, Op};
use wm_program::{Converted, Expr, FunctionInfo, Program, Scalar, Simple, Spot, Statement};

/// The innermost loop in whose body an operator is called, and the scalar that is its first argument and gets its value.
#[derive(Clone, Copy, Debug, PartialEq, Eq)]
pub struct Step {
    pub loop_id: u32,
    pub scalar: Scalar,
}

/// Whether the operator adds to its first argument.
pub fn is_adding(op: Op) -> bool {
    match op {
        Op::Add => true,
        Op::Sub => true,
        Op::LAdd => true,
        Op::LSub => true,
        Op::LMac => true,
        Op::LMsu => true,
        Op::LMac0 => true,
        Op::LMsu0 => true,
        _ => false,
    }
}

/// Whether a loop stands in one of these statements.
#[cycle(has_loop)]
fn have_loop(statements: &Items<Statement>) -> bool {
    for statement in statements.as_slice() {
        if has_loop(statement) {
            return true;
        }
    }
    false
}

/// Whether a loop stands in a statement or is one.
#[cycle(has_loop)]
fn has_loop(statement: &Statement) -> bool {
    match statement {
        Statement::Block(statements) => have_loop(statements),
        Statement::Empty => false,
        Statement::Declare(_) => false,
        Statement::Simple(_) => false,
        Statement::If {
            then,
            otherwise,
            ..
        } => {
            if has_loop(then.get()) {
                return true;
            }
            match otherwise {
                None => false,
                Some(otherwise) => has_loop(otherwise.body.get()),
            }
        }
        Statement::For { .. } => true,
        Statement::While { .. } => true,
        Statement::Do { .. } => true,
        Statement::Break { .. } => false,
        Statement::Continue { .. } => false,
        Statement::Return(_) => false,
    }
}

/// Whether the expression is this scalar.
fn is_scalar(x: &Expr, scalar: Scalar) -> bool {
    match x {
        Expr::Scalar(other) => *other == scalar,
        _ => false,
    }
}

fn is_first(arguments: &Items<Converted<Expr>>, scalar: Scalar) -> bool {
    match arguments.as_slice().first() {
        None => false,
        Some(first) => is_scalar(&first.value, scalar),
    }
}

/// The site of the operator that adds to the scalar; none where the value is another one.
fn added_at(scalar: Scalar, value: &Expr) -> Option<u32> {
    match value {
        Expr::Operator {
            op,
            arguments,
            site,
        } => {
            if !is_adding(*op) {
                return None;
            }
            if is_first(arguments, scalar) {
                return Some(*site);
            }
            None
        }
        _ => None,
    }
}

fn note(steps: &mut Vec<Option<Step>>, site: Option<u32>, step: Step) {
    match site {
        None => {}
        Some(site) => {
            let place = site as usize;
            if place < steps.len() {
                steps[place] = Some(step);
            }
        }
    }
}

fn note_assigned(steps: &mut Vec<Option<Step>>, loop_id: u32, spot: &Spot, value: &Expr) {
    match spot {
        Spot::Scalar(scalar) => {
            let step = Step {
                loop_id,
                scalar: *scalar,
            };
            note(steps, added_at(*scalar, value), step);
        }
        Spot::Element { .. } => {}
    }
}

fn note_simple(steps: &mut Vec<Option<Step>>, inner: Option<u32>, simple: &Simple) {
    let Some(loop_id) = inner else {
        return;
    };
    match simple {
        Simple::Assign { spot, value } => note_assigned(steps, loop_id, spot, &value.value),
        Simple::Update { .. } => {}
        Simple::Evaluate(_) => {}
        Simple::Count(_) => {}
    }
}

/// The loop itself where no loop stands in its body.
fn inner_of(number: u32, body: &Statement) -> Option<u32> {
    if has_loop(body) {
        return None;
    }
    Some(number)
}

#[cycle(note_steps)]
fn note_all(steps: &mut Vec<Option<Step>>, inner: Option<u32>, statements: &Items<Statement>) {
    for statement in statements.as_slice() {
        note_steps(steps, inner, statement);
    }
}

/// Notes the steps in a statement that stands in the body of this innermost loop, or in none.
#[cycle(note_steps)]
fn note_steps(steps: &mut Vec<Option<Step>>, inner: Option<u32>, statement: &Statement) {
    match statement {
        Statement::Block(statements) => note_all(steps, inner, statements),
        Statement::Empty => {}
        Statement::Declare(_) => {}
        Statement::Simple(simple) => note_simple(steps, inner, simple),
        Statement::If {
            then,
            otherwise,
            ..
        } => {
            note_steps(steps, inner, then.get());
            match otherwise {
                None => {}
                Some(otherwise) => note_steps(steps, inner, otherwise.body.get()),
            }
        }
        Statement::For { number, body, .. } => {
            let inside = inner_of(*number, body.get());
            note_steps(steps, inside, body.get());
        }
        Statement::While { number, body, .. } => {
            let inside = inner_of(*number, body.get());
            note_steps(steps, inside, body.get());
        }
        Statement::Do { number, body, .. } => {
            let inside = inner_of(*number, body.get());
            note_steps(steps, inside, body.get());
        }
        Statement::Break { .. } => {}
        Statement::Continue { .. } => {}
        Statement::Return(_) => {}
    }
}

/// For each site of the program the step that its operator makes, where it makes one.
pub fn steps_of(alloc: Global, program: &Program) -> Result<Vec<Option<Step>>, NoMemory> {
    let mut steps = Vec::new(alloc);
    for _site in program.sites.items() {
        steps.push(None)?;
    }
    for function in program.functions.items() {
        note_all(&mut steps, None, &function.body.statements);
    }
    Ok(steps)
}
