// Statements without words of their own.
ghost use Rattle.std.specs.Prelude.{◌≡◌, []};
ghost use Rattle.wm_members.specs.Expressions.{expanded};
ghost use Rattle.wm_members.specs.Making.{Makes, maybe, more};
ghost use Rattle.wm_struct.specs.Statements.{simple_made};

use sqlite_items::Items;
use std::alloc::Global;
use wm_lang::{Expr, Simple};
use wm_members::{State, call_of, expression_of, room_for, spot_of};
use wm_ops::NoMemory;

/// An expression that may be absent.
pub fn maybe_of(
    value: &Option<Expr>,
    state: &mut State<'_>,
    alloc: Global,
) -> Result<Option<Expr>, NoMemory>
    ensures made { Makes (maybe expanded value.now state.old) result state.new }
{
    match value {
        None => Ok(None),
        Some(value) => Ok(Some(expression_of(value, state, alloc)?)),
    }
}

/// An assignment, a step or a call.
pub fn simple_of(simple: &Simple, state: &mut State<'_>, alloc: Global) -> Result<Simple, NoMemory>
    ensures made { Makes (simple_made simple.now state.old) result state.new }
{
    match simple {
        Simple::Assign {
            spot,
            mark,
            at,
            value,
        } => {
            let spot = spot_of(spot, state, alloc)?;
            let value = expression_of(value, state, alloc)?;
            Ok(Simple::Assign {
                spot,
                mark: *mark,
                at: *at,
                value,
            })
        }
        Simple::StepAfter { spot, mark, at } => {
            let spot = spot_of(spot, state, alloc)?;
            Ok(Simple::StepAfter {
                spot,
                mark: *mark,
                at: *at,
            })
        }
        Simple::StepBefore { mark, at, spot } => {
            let spot = spot_of(spot, state, alloc)?;
            Ok(Simple::StepBefore {
                mark: *mark,
                at: *at,
                spot,
            })
        }
        Simple::Call(call) => Ok(Simple::Call(call_of(call, state, alloc)?)),
    }
}

/// A part of the head of a for loop.
pub fn simples_of(
    simples: &Items<Simple>,
    state: &mut State<'_>,
    alloc: Global,
) -> Result<Items<Simple>, NoMemory>
    ensures made { Makes (more simple_made [] simples.now state.old) result state.new }
{
    let mut done = room_for(alloc, simples.len())?;
    for simple in simples.as_slice() {
        done.push(simple_of(simple, state, alloc)?)?;
    }
    Ok(done)
}
