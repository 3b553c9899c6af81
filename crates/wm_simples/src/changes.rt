// Assignments, steps and calls.
ghost use Rattle.std.specs.Prelude.{◌≡◌};
ghost use Rattle.wm_cursor.specs.Inputs.{Reads, input_of};
ghost use Rattle.wm_simples.specs.Simples as spec;

use sqlite_items::{Boxed, Items};
use std::alloc::Global;
use wm_cursor::{Beginning, ParseFault, Tokens, assign_of, beginning_of, step_of};
use wm_expressions::{call_at, pointed, spot_at, whole};
use wm_lang::{Expr, Punct, Simple, Spot, StepMark};

#[tactic(auto, unfolding(crate::specs::Simples::named_spot))]
/// A spot that begins with a name.
fn named_spot(
    alloc: Global,
    tokens: &mut Tokens<'_>,
    depth: usize,
) -> Result<Spot<Boxed<Expr>>, ParseFault>
    ensures { Reads (spec.named_spot depth (input_of tokens.old)) result (input_of tokens.new) }
{
    let name = tokens.identifier(alloc)?;
    let at = name.at;
    let kind = spot_at(alloc, tokens, depth, name)?;
    Ok(Spot { at, kind })
}

#[tactic(auto, unfolding(crate::specs::Simples::spot))]
/// What a step may change.
fn spot(
    alloc: Global,
    tokens: &mut Tokens<'_>,
    depth: usize,
) -> Result<Spot<Boxed<Expr>>, ParseFault>
    ensures { Reads (spec.spot depth (input_of tokens.old)) result (input_of tokens.new) }
{
    match beginning_of(tokens.peek()) {
        Beginning::Star => pointed(alloc, tokens),
        Beginning::Name => named_spot(alloc, tokens, depth),
        Beginning::Step(_) => Err(tokens.refuse()),
        Beginning::Other => Err(tokens.refuse()),
    }
}

#[tactic(auto, unfolding(crate::specs::Simples::step_before))]
/// A step whose mark comes first.
fn step_before(
    alloc: Global,
    tokens: &mut Tokens<'_>,
    depth: usize,
    mark: StepMark,
) -> Result<Simple, ParseFault>
    ensures { Reads (spec.step_before depth mark (input_of tokens.old)) result (input_of tokens.new) }
{
    let at = tokens.take();
    let spot = spot(alloc, tokens, depth)?;
    Ok(Simple::StepBefore { mark, at, spot })
}

#[tactic(auto, unfolding(crate::specs::Simples::assigned))]
/// An assignment behind its spot.
fn assigned(
    alloc: Global,
    tokens: &mut Tokens<'_>,
    depth: usize,
    spot: Spot<Boxed<Expr>>,
) -> Result<Simple, ParseFault>
    ensures { Reads (spec.assigned depth spot (input_of tokens.old)) result (input_of tokens.new) }
{
    match assign_of(tokens.peek()) {
        Some(mark) => {
            let at = tokens.take();
            let value = whole(alloc, tokens, depth)?;
            Ok(Simple::Assign {
                spot,
                mark,
                at,
                value,
            })
        }
        None => Err(tokens.refuse()),
    }
}

#[tactic(auto, unfolding(crate::specs::Simples::changed))]
/// An assignment or a step behind its spot.
fn changed(
    alloc: Global,
    tokens: &mut Tokens<'_>,
    depth: usize,
    spot: Spot<Boxed<Expr>>,
) -> Result<Simple, ParseFault>
    ensures { Reads (spec.changed depth spot (input_of tokens.old)) result (input_of tokens.new) }
{
    match step_of(tokens.peek()) {
        Some(mark) => {
            let at = tokens.take();
            Ok(Simple::StepAfter { spot, mark, at })
        }
        None => assigned(alloc, tokens, depth, spot),
    }
}

#[tactic(auto, unfolding(crate::specs::Simples::named))]
/// A call, or what changes a spot that begins with a name.
fn named(alloc: Global, tokens: &mut Tokens<'_>, depth: usize) -> Result<Simple, ParseFault>
    ensures { Reads (spec.named depth (input_of tokens.old)) result (input_of tokens.new) }
{
    let name = tokens.identifier(alloc)?;
    if tokens.sees(Punct::LeftParenthesis) {
        return Ok(Simple::Call(call_at(alloc, tokens, depth, name)?));
    }
    let at = name.at;
    let kind = spot_at(alloc, tokens, depth, name)?;
    changed(alloc, tokens, depth, Spot { at, kind })
}

#[tactic(auto, unfolding(crate::specs::Simples::through_pointer))]
/// An assignment through a pointer. `*p++` steps the pointer in C, so no step follows.
fn through_pointer(
    alloc: Global,
    tokens: &mut Tokens<'_>,
    depth: usize,
) -> Result<Simple, ParseFault>
    ensures { Reads (spec.through_pointer depth (input_of tokens.old)) result (input_of tokens.new) }
{
    let spot = pointed(alloc, tokens)?;
    assigned(alloc, tokens, depth, spot)
}

#[tactic(auto, unfolding(crate::specs::Simples::simple))]
/// An assignment, a step or a call.
pub fn simple(alloc: Global, tokens: &mut Tokens<'_>, depth: usize) -> Result<Simple, ParseFault>
    ensures { Reads (spec.simple depth (input_of tokens.old)) result (input_of tokens.new) }
{
    match beginning_of(tokens.peek()) {
        Beginning::Step(mark) => step_before(alloc, tokens, depth, mark),
        Beginning::Star => through_pointer(alloc, tokens, depth),
        Beginning::Name => named(alloc, tokens, depth),
        Beginning::Other => Err(tokens.refuse()),
    }
}

#[tactic(auto, unfolding(crate::specs::Simples::simples))]
/// Some of these with commas between them, at least one.
pub fn simples(
    alloc: Global,
    tokens: &mut Tokens<'_>,
    depth: usize,
) -> Result<Items<Simple>, ParseFault>
    ensures { Reads (spec.simples depth (input_of tokens.old)) result (input_of tokens.new) }
{
    let mut found = Items::new(alloc);
    found.push(simple(alloc, tokens, depth)?)?;
    for _turn in 0..tokens.count() {
        if !tokens.eat(Punct::Comma) {
            return Ok(found);
        }
        found.push(simple(alloc, tokens, depth)?)?;
    }
    Ok(found)
}
