// Statements and blocks without the forms of structs.
ghost use Rattle.std.specs.Prelude.{◌≡◌};
ghost use Rattle.wm_members.specs.Making.{Makes};
ghost use Rattle.wm_struct.specs.Statements.{head_made, items_expanded, otherwise_made, otherwise_layer, statement_expanded};

use crate::declaration::declaration_of;
use crate::simple::{maybe_of, simple_of, simples_of};
use sqlite_items::{Boxed, Items};
use std::alloc::Global;
use wm_lang::{Block, BlockItem, Expr, Otherwise, Simple, Statement};
use wm_members::{State, expression_of, room_for};
use wm_ops::NoMemory;

/// What stands in the parentheses of a for loop.
#[derive(Drop)]
pub struct Head {
    pub begin: Items<Simple>,
    pub condition: Option<Expr>,
    pub step: Items<Simple>,
}

fn head_of(
    begin: &Items<Simple>,
    condition: &Option<Expr>,
    step: &Items<Simple>,
    state: &mut State<'_>,
    alloc: Global,
) -> Result<Head, NoMemory>
    ensures made { Makes (head_made begin.now condition.now step.now state.old) result state.new }
{
    let begin = simples_of(begin, state, alloc)?;
    let condition = maybe_of(condition, state, alloc)?;
    let step = simples_of(step, state, alloc)?;
    Ok(Head {
        begin,
        condition,
        step,
    })
}

/// What stands in a block.
#[cycle(statement)]
pub fn items_of<'u>(
    items: &'u Items<BlockItem<Statement>>,
    state: &mut State<'u>,
    alloc: Global,
) -> Result<Items<BlockItem<Statement>>, NoMemory>
    ensures made { Makes (items_expanded items.now state.old) result state.new }
{
    let mut done = room_for(alloc, items.len())?;
    for item in items.as_slice() {
        match item {
            BlockItem::Declaration(declaration) => {
                let made = declaration_of(true, declaration, state, alloc)?;
                done.push(BlockItem::Declaration(made))?;
            }
            BlockItem::Statement(inner) => {
                let made = statement(inner, state, alloc)?;
                done.push(BlockItem::Statement(made))?;
            }
        }
    }
    Ok(done)
}

#[cycle(statement)]
fn otherwise_of<'u>(
    otherwise: &'u Option<Otherwise<Boxed<Statement>>>,
    state: &mut State<'u>,
    alloc: Global,
) -> Result<Option<Otherwise<Boxed<Statement>>>, NoMemory>
    ensures made { Makes (otherwise_made (otherwise_layer otherwise.now) state.old) result state.new }
{
    match otherwise {
        None => Ok(None),
        Some(otherwise) => {
            let body = Boxed::new(alloc, statement(otherwise.body.get(), state, alloc)?)?;
            Ok(Some(Otherwise {
                word: otherwise.word,
                body,
            }))
        }
    }
}

/// A statement without the forms of structs.
#[cycle(statement)]
fn statement<'u>(
    whole: &'u Statement,
    state: &mut State<'u>,
    alloc: Global,
) -> Result<Statement, NoMemory>
    ensures made { Makes (statement_expanded whole.now state.old) result state.new }
{
    match whole {
        Statement::Block(block) => {
            state.enter(alloc)?;
            let items = items_of(&block.items, state, alloc)?;
            state.leave();
            Ok(Statement::Block(Block {
                first: block.first,
                items,
                last: block.last,
            }))
        }
        Statement::Empty { at } => Ok(Statement::Empty { at: *at }),
        Statement::Simple(simple) => Ok(Statement::Simple(simple_of(simple, state, alloc)?)),
        Statement::If {
            word,
            condition,
            then,
            otherwise,
        } => {
            let condition = expression_of(condition, state, alloc)?;
            let then = Boxed::new(alloc, statement(then.get(), state, alloc)?)?;
            let otherwise = otherwise_of(otherwise, state, alloc)?;
            Ok(Statement::If {
                word: *word,
                condition,
                then,
                otherwise,
            })
        }
        Statement::For {
            word,
            begin,
            condition,
            step,
            body,
        } => {
            let head = head_of(begin, condition, step, state, alloc)?;
            let body = Boxed::new(alloc, statement(body.get(), state, alloc)?)?;
            Ok(Statement::For {
                word: *word,
                begin: head.begin,
                condition: head.condition,
                step: head.step,
                body,
            })
        }
        Statement::While {
            word,
            condition,
            body,
        } => {
            let condition = expression_of(condition, state, alloc)?;
            let body = Boxed::new(alloc, statement(body.get(), state, alloc)?)?;
            Ok(Statement::While {
                word: *word,
                condition,
                body,
            })
        }
        Statement::Do {
            word,
            body,
            tail,
            condition,
        } => {
            let body = Boxed::new(alloc, statement(body.get(), state, alloc)?)?;
            let condition = expression_of(condition, state, alloc)?;
            Ok(Statement::Do {
                word: *word,
                body,
                tail: *tail,
                condition,
            })
        }
        Statement::Break { word } => Ok(Statement::Break { word: *word }),
        Statement::Continue { word } => Ok(Statement::Continue { word: *word }),
        Statement::Return { at, value } => {
            let value = maybe_of(value, state, alloc)?;
            Ok(Statement::Return { at: *at, value })
        }
    }
}
