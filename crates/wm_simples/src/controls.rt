// The parts of control statements that hold no statement.
ghost use Rattle.std.specs.Prelude.{◌≡◌, ◌-◌};
ghost use Rattle.wm_cursor.specs.Inputs.{Reads, input_of};
ghost use Rattle.wm_simples.specs.Controls as spec;

use crate::changes::simples;
use sqlite_items::Items;
use std::alloc::Global;
use wm_cursor::{ParseFault, Tokens, while_of};
use wm_expressions::whole;
use wm_lang::{Expr, Punct, Simple, Statement, Word};

#[tactic(auto, unfolding(crate::specs::Controls::control))]
/// A control word, which must come next. What stands behind it opens a level.
pub fn control(tokens: &mut Tokens<'_>, depth: usize, is_counted: bool) -> Result<Word, ParseFault>
    ensures { Reads (spec.control depth is_counted (input_of tokens.old)) result (input_of tokens.new) }
{
    let at = tokens.enter(depth)?;
    Ok(Word { is_counted, at })
}

#[tactic(auto, unfolding(crate::specs::Controls::condition))]
/// A condition in its parentheses.
pub fn condition(alloc: Global, tokens: &mut Tokens<'_>, depth: usize) -> Result<Expr, ParseFault>
    ensures { Reads (spec.condition depth (input_of tokens.old)) result (input_of tokens.new) }
{
    tokens.expect(Punct::LeftParenthesis)?;
    let condition = whole(alloc, tokens, depth.saturating_sub(1))?;
    tokens.expect(Punct::RightParenthesis)?;
    Ok(condition)
}

#[tactic(auto, unfolding(crate::specs::Controls::tested))]
/// A control word, which must come next, and the condition behind it.
pub fn tested(
    alloc: Global,
    tokens: &mut Tokens<'_>,
    depth: usize,
    is_counted: bool,
) -> Result<(Word, Expr), ParseFault>
    ensures { Reads (spec.tested depth is_counted (input_of tokens.old)) result (input_of tokens.new) }
{
    let word = control(tokens, depth, is_counted)?;
    let condition = condition(alloc, tokens, depth)?;
    Ok((word, condition))
}

/// The head of a for loop.
#[derive(Drop)]
pub struct ForHead {
    pub begin: Items<Simple>,
    pub condition: Option<Expr>,
    pub step: Items<Simple>,
}

#[tactic(auto, unfolding(crate::specs::Controls::simples_before))]
/// Assignments, steps and calls, unless this mark comes at once.
fn simples_before(
    alloc: Global,
    tokens: &mut Tokens<'_>,
    depth: usize,
    mark: Punct,
) -> Result<Items<Simple>, ParseFault>
    ensures { Reads (spec.simples_before depth mark (input_of tokens.old)) result (input_of tokens.new) }
{
    if tokens.sees(mark) {
        return Ok(Items::new(alloc));
    }
    simples(alloc, tokens, depth)
}

#[tactic(auto, unfolding(crate::specs::Controls::value))]
/// An expression, unless a `;` comes at once; and the `;`.
fn value(alloc: Global, tokens: &mut Tokens<'_>, depth: usize) -> Result<Option<Expr>, ParseFault>
    ensures { Reads (spec.value depth (input_of tokens.old)) result (input_of tokens.new) }
{
    if tokens.eat(Punct::Semicolon) {
        return Ok(None);
    }
    let value = whole(alloc, tokens, depth)?;
    tokens.expect(Punct::Semicolon)?;
    Ok(Some(value))
}

#[tactic(auto, unfolding(crate::specs::Controls::for_parts))]
/// The three parts of a for loop behind the `(`, and the `)`.
fn for_parts(alloc: Global, tokens: &mut Tokens<'_>, depth: usize) -> Result<ForHead, ParseFault>
    ensures { Reads (spec.for_parts depth (input_of tokens.old)) result (input_of tokens.new) }
{
    let begin = simples_before(alloc, tokens, depth, Punct::Semicolon)?;
    tokens.expect(Punct::Semicolon)?;
    let condition = value(alloc, tokens, depth)?;
    let step = simples_before(alloc, tokens, depth, Punct::RightParenthesis)?;
    tokens.expect(Punct::RightParenthesis)?;
    Ok(ForHead {
        begin,
        condition,
        step,
    })
}

#[tactic(auto, unfolding(crate::specs::Controls::for_head))]
/// The head of a for loop in its parentheses.
pub fn for_head(alloc: Global, tokens: &mut Tokens<'_>, depth: usize) -> Result<ForHead, ParseFault>
    ensures { Reads (spec.for_head depth (input_of tokens.old)) result (input_of tokens.new) }
{
    tokens.expect(Punct::LeftParenthesis)?;
    for_parts(alloc, tokens, depth.saturating_sub(1))
}

#[tactic(auto, unfolding(crate::specs::Controls::tail))]
/// The `while` behind the body of a do loop.
pub fn tail(tokens: &mut Tokens<'_>) -> Result<Word, ParseFault>
    ensures { Reads (spec.tail (input_of tokens.old)) result (input_of tokens.new) }
{
    match while_of(tokens.peek()) {
        Some(is_counted) => {
            let at = tokens.take();
            Ok(Word { is_counted, at })
        }
        None => Err(tokens.refuse()),
    }
}

#[tactic(auto, unfolding(crate::specs::Controls::leap))]
/// A `break` or a `continue`, which must come next, and the `;` behind it.
pub fn leap(tokens: &mut Tokens<'_>, is_counted: bool) -> Result<Word, ParseFault>
    ensures { Reads (spec.leap is_counted (input_of tokens.old)) result (input_of tokens.new) }
{
    let at = tokens.take();
    tokens.expect(Punct::Semicolon)?;
    Ok(Word { is_counted, at })
}

#[tactic(auto, unfolding(crate::specs::Controls::returned))]
/// A `return`, which must come next, with its value.
pub fn returned(
    alloc: Global,
    tokens: &mut Tokens<'_>,
    depth: usize,
) -> Result<Statement, ParseFault>
    ensures { Reads (spec.returned depth (input_of tokens.old)) result (input_of tokens.new) }
{
    let at = tokens.take();
    let value = value(alloc, tokens, depth)?;
    Ok(Statement::Return { at, value })
}
