// Statements: one cycle over their tree.
ghost use Rattle.std.specs.Prelude.{◌≡◌, []};
ghost use Rattle.wm_marks.specs.Marking.{Gives};
ghost use Rattle.wm_source.specs.Pieces.{piece_of, written_items};
ghost use Rattle.wm_body.specs.Statements as spec;

use crate::acts::{simple, simples};
use crate::declarations::declaration;
use crate::work::{Work, deeper};
use sqlite_items::{Boxed, Items};
use std::alloc::Global;
use wm_lang::{BlockItem, Expr, Position, Statement};
use wm_marks::Marks;
use wm_ops::{NoMemory, Width};
use wm_program::{Condition, Converted, Otherwise, Statement as Tree};
use wm_scope::{Scope, TokenFault};
use wm_source::step;
use wm_value::{condition, narrowing, number, value};

#[tactic(auto, unfolding(crate::specs::Statements::tested))]
fn tested(
    tested: &Option<Expr>,
    alloc: Global,
    scope: &Scope,
    marks: &mut Marks,
) -> Result<Option<Condition>, NoMemory>
    ensures { Gives (spec.tested tested.now scope.now marks.old) result marks.new }
{
    match tested {
        None => Ok(None),
        Some(expression) => {
            let found = condition(expression, alloc, scope, marks)?;
            Ok(Some(found))
        }
    }
}

#[tactic(auto, unfolding(crate::specs::Statements::returned_value))]
fn returned_value(
    expression: &Expr,
    at: Position,
    width: Option<Width>,
    alloc: Global,
    scope: &Scope,
    marks: &mut Marks,
) -> Result<Tree, NoMemory>
    ensures { Gives (spec.returned_value expression.now at width scope.now marks.old) result marks.new }
{
    match width {
        Some(width) => {
            let narrowing = narrowing(expression, width, at, scope, marks)?;
            let value = number(expression, alloc, scope, marks)?;
            Ok(Tree::Return(Some(Converted { value, narrowing })))
        }
        None => {
            marks.note(TokenFault::WrongKind, at);
            value(expression, alloc, scope, false, marks)?;
            Ok(Tree::Return(None))
        }
    }
}

fn left(at: Position, width: Option<Width>, marks: &mut Marks) -> Tree
    ensures { spec.left at width marks.old ≡ (result, marks.new) }
{
    match width {
        Some(_) => {
            marks.note(TokenFault::WrongKind, at);
            Tree::Return(None)
        }
        None => Tree::Return(None),
    }
}

#[tactic(auto, unfolding(crate::specs::Statements::returned))]
fn returned(
    value: &Option<Expr>,
    at: Position,
    width: Option<Width>,
    alloc: Global,
    scope: &Scope,
    marks: &mut Marks,
) -> Result<Tree, NoMemory>
    ensures { Gives (spec.returned value.now at width scope.now marks.old) result marks.new }
{
    match value {
        None => Ok(left(at, width, marks)),
        Some(expression) => returned_value(expression, at, width, alloc, scope, marks),
    }
}

/// A block, with so many loops around it.
#[cycle(statement)]
fn block_of(
    items: &Items<BlockItem<Statement>>,
    alloc: Global,
    depth: u32,
    work: &mut Work,
) -> Result<Tree, NoMemory>
    ensures { Gives (spec.block_in depth (written_items items.now) work.old) result work.new }
{
    let outer = work.scope.outer;
    work.enter();
    let mut found = Items::new(alloc);
    for item in items.as_slice() {
        match item {
            BlockItem::Declaration(declared) => {
                found.push(declaration(declared, alloc, work)?)?;
            }
            BlockItem::Statement(one) => {
                found.push(statement(one, alloc, depth, work)?)?;
            }
        }
    }
    work.leave(outer);
    Ok(Tree::Block(found))
}

/// What stands in a block, in a scope that is open, with so many loops around it.
pub fn items(
    items: &Items<BlockItem<Statement>>,
    alloc: Global,
    depth: u32,
    work: &mut Work,
) -> Result<Items<Tree>, NoMemory>
    ensures items { Gives (spec.pieces_in depth [] (written_items items.now) work.old) result work.new }
{
    let mut found = Items::new(alloc);
    for item in items.as_slice() {
        match item {
            BlockItem::Declaration(declared) => {
                found.push(declaration(declared, alloc, work)?)?;
            }
            BlockItem::Statement(one) => {
                found.push(statement(one, alloc, depth, work)?)?;
            }
        }
    }
    Ok(found)
}

#[cycle(statement)]
fn statement(read: &Statement, alloc: Global, depth: u32, work: &mut Work) -> Result<Tree, NoMemory>
    ensures { Gives (spec.statement_in depth (piece_of read.now) work.old) result work.new }
{
    match read {
        Statement::Block(block) => {
            let made = block_of(&block.items, alloc, depth, work)?;
            Ok(made)
        }
        Statement::Empty { .. } => Ok(Tree::Empty),
        Statement::Simple(act) => {
            let found = simple(act, alloc, &work.scope, &mut work.marks)?;
            Ok(Tree::Simple(found))
        }
        Statement::If {
            word,
            condition: tested,
            then,
            otherwise,
        } => {
            let is_counted = word.is_counted;
            let condition = condition(tested, alloc, &work.scope, &mut work.marks)?;
            let first = statement(then.get(), alloc, depth, work)?;
            let then = Boxed::new(alloc, first)?;
            match otherwise {
                None => Ok(Tree::If {
                    is_counted,
                    condition,
                    then,
                    otherwise: None,
                }),
                Some(otherwise) => {
                    let other = statement(otherwise.body.get(), alloc, depth, work)?;
                    let body = Boxed::new(alloc, other)?;
                    Ok(Tree::If {
                        is_counted,
                        condition,
                        then,
                        otherwise: Some(Otherwise {
                            is_counted: otherwise.word.is_counted,
                            body,
                        }),
                    })
                }
            }
        }
        Statement::For {
            word,
            begin,
            condition: test,
            step: stepped,
            body,
        } => {
            let number = work.make_loop(word.at, step(stepped.as_slice()), depth)?;
            let begin = simples(begin.as_slice(), alloc, &work.scope, &mut work.marks)?;
            let condition = tested(test, alloc, &work.scope, &mut work.marks)?;
            let step = simples(stepped.as_slice(), alloc, &work.scope, &mut work.marks)?;
            let inner = statement(body.get(), alloc, deeper(depth), work)?;
            Ok(Tree::For {
                is_counted: word.is_counted,
                number,
                begin,
                condition,
                step,
                body: Boxed::new(alloc, inner)?,
            })
        }
        Statement::While {
            word,
            condition: tested,
            body,
        } => {
            let number = work.make_loop(word.at, 1, depth)?;
            let condition = condition(tested, alloc, &work.scope, &mut work.marks)?;
            let inner = statement(body.get(), alloc, deeper(depth), work)?;
            Ok(Tree::While {
                is_counted: word.is_counted,
                number,
                condition,
                body: Boxed::new(alloc, inner)?,
            })
        }
        Statement::Do {
            word,
            body,
            tail,
            condition: tested,
        } => {
            let number = work.make_loop(word.at, 1, depth)?;
            let inner = statement(body.get(), alloc, deeper(depth), work)?;
            let condition = condition(tested, alloc, &work.scope, &mut work.marks)?;
            Ok(Tree::Do {
                is_counted: word.is_counted,
                is_tail_counted: tail.is_counted,
                number,
                body: Boxed::new(alloc, inner)?,
                condition,
            })
        }
        Statement::Break { word } => {
            work.leap(word.at, depth);
            Ok(Tree::Break {
                is_counted: word.is_counted,
            })
        }
        Statement::Continue { word } => {
            work.leap(word.at, depth);
            Ok(Tree::Continue {
                is_counted: word.is_counted,
            })
        }
        Statement::Return { at, value } => returned(
            value,
            *at,
            work.result,
            alloc,
            &work.scope,
            &mut work.marks,
        ),
    }
}
