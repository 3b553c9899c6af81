// Expressions without the forms of structs.
ghost use Rattle.std.specs.Prelude.{◌≡◌, [], map};
ghost use Rattle.wm_members.specs.Expressions.{expanded, seen, part_seen, part_made, spot_seen, spot_made, kind_seen, kind_made, call_seen, call_made, arguments_made, passed};
ghost use Rattle.wm_members.specs.Making.{Makes, Adds, more};

use crate::fault::Kind;
use crate::handed::{Passing, first_in, passing_of, views_of};
use crate::naming::{copied_name, name_of_member};
use crate::room::room_for;
use crate::spot::{address_of, hand_on, member_spot, pointed_at};
use crate::state::State;
use sqlite_items::{Boxed, Items};
use std::alloc::Global;
use wm_lang::{
    Call, Chain, EqualityMark, Expr, Part, ProductMark, RelationMark, Spot, SpotKind, SumMark,
};
use wm_ops::NoMemory;

#[cycle(expression)]
fn truths(
    rest: &Items<Part<(), Expr>>,
    state: &mut State<'_>,
    alloc: Global,
) -> Result<Items<Part<(), Expr>>, NoMemory>
    ensures made { Makes (more part_made [] (map part_seen rest.now) state.old) result state.new }
{
    let mut done = room_for(alloc, rest.len())?;
    for part in rest.as_slice() {
        let operand = expression_of(&part.operand, state, alloc)?;
        done.push(Part {
            mark: part.mark,
            at: part.at,
            operand,
        })?;
    }
    Ok(done)
}

#[cycle(expression)]
fn equalities(
    rest: &Items<Part<EqualityMark, Expr>>,
    state: &mut State<'_>,
    alloc: Global,
) -> Result<Items<Part<EqualityMark, Expr>>, NoMemory>
    ensures made { Makes (more part_made [] (map part_seen rest.now) state.old) result state.new }
{
    let mut done = room_for(alloc, rest.len())?;
    for part in rest.as_slice() {
        let operand = expression_of(&part.operand, state, alloc)?;
        done.push(Part {
            mark: part.mark,
            at: part.at,
            operand,
        })?;
    }
    Ok(done)
}

#[cycle(expression)]
fn relations(
    rest: &Items<Part<RelationMark, Expr>>,
    state: &mut State<'_>,
    alloc: Global,
) -> Result<Items<Part<RelationMark, Expr>>, NoMemory>
    ensures made { Makes (more part_made [] (map part_seen rest.now) state.old) result state.new }
{
    let mut done = room_for(alloc, rest.len())?;
    for part in rest.as_slice() {
        let operand = expression_of(&part.operand, state, alloc)?;
        done.push(Part {
            mark: part.mark,
            at: part.at,
            operand,
        })?;
    }
    Ok(done)
}

#[cycle(expression)]
fn sums(
    rest: &Items<Part<SumMark, Expr>>,
    state: &mut State<'_>,
    alloc: Global,
) -> Result<Items<Part<SumMark, Expr>>, NoMemory>
    ensures made { Makes (more part_made [] (map part_seen rest.now) state.old) result state.new }
{
    let mut done = room_for(alloc, rest.len())?;
    for part in rest.as_slice() {
        let operand = expression_of(&part.operand, state, alloc)?;
        done.push(Part {
            mark: part.mark,
            at: part.at,
            operand,
        })?;
    }
    Ok(done)
}

#[cycle(expression)]
fn products(
    rest: &Items<Part<ProductMark, Expr>>,
    state: &mut State<'_>,
    alloc: Global,
) -> Result<Items<Part<ProductMark, Expr>>, NoMemory>
    ensures made { Makes (more part_made [] (map part_seen rest.now) state.old) result state.new }
{
    let mut done = room_for(alloc, rest.len())?;
    for part in rest.as_slice() {
        let operand = expression_of(&part.operand, state, alloc)?;
        done.push(Part {
            mark: part.mark,
            at: part.at,
            operand,
        })?;
    }
    Ok(done)
}

#[cycle(expression)]
fn kind_of(
    kind: &SpotKind<Boxed<Expr>>,
    state: &mut State<'_>,
    alloc: Global,
) -> Result<SpotKind<Boxed<Expr>>, NoMemory>
    ensures made { Makes (kind_made (kind_seen kind.now) state.old) result state.new }
{
    match kind {
        SpotKind::Scalar { name } => {
            state.see_use(name);
            Ok(SpotKind::Scalar {
                name: copied_name(name, alloc)?,
            })
        }
        SpotKind::Element {
            name,
            bracket,
            index,
        } => {
            state.see_use(name);
            let index = Boxed::new(alloc, expression_of(index.get(), state, alloc)?)?;
            Ok(SpotKind::Element {
                name: copied_name(name, alloc)?,
                bracket: *bracket,
                index,
            })
        }
        SpotKind::Pointed { star, name } => {
            state.see_use(name);
            Ok(SpotKind::Pointed {
                star: *star,
                name: copied_name(name, alloc)?,
            })
        }
        SpotKind::Member {
            object,
            mark,
            mark_at,
            member,
        } => {
            let is_pointed = pointed_at(object, *mark, *mark_at, member, state);
            member_spot(object, *mark_at, member, is_pointed, alloc)
        }
        SpotKind::MemberElement {
            object,
            mark,
            mark_at,
            member,
            bracket,
            index,
        } => {
            pointed_at(object, *mark, *mark_at, member, state);
            let index = Boxed::new(alloc, expression_of(index.get(), state, alloc)?)?;
            Ok(SpotKind::Element {
                name: name_of_member(object, member.name.bytes(), alloc)?,
                bracket: *bracket,
                index,
            })
        }
    }
}

/// A spot without the forms of structs.
pub fn spot_of(
    spot: &Spot<Boxed<Expr>>,
    state: &mut State<'_>,
    alloc: Global,
) -> Result<Spot<Boxed<Expr>>, NoMemory>
    ensures made { Makes (spot_made (spot_seen spot.now) state.old) result state.new }
{
    let kind = kind_of(&spot.kind, state, alloc)?;
    Ok(Spot { at: spot.at, kind })
}

/// An argument of which the place among the parameters is known, behind those so far.
#[cycle(expression)]
fn argument_of(
    argument: &Expr,
    passing: Option<Passing>,
    done: &mut Items<Expr>,
    state: &mut State<'_>,
    alloc: Global,
) -> Result<(), NoMemory>
    ensures made { Adds (passed passing (seen argument.now) done.old state.old) result done.new state.new }
{
    match passing {
        None => {
            state.note(Kind::StructKind, first_in(argument).token);
            Ok(())
        }
        Some(Passing::Value) => {
            done.push(expression_of(argument, state, alloc)?)?;
            Ok(())
        }
        Some(Passing::Members(number)) => views_of(argument, number, done, state, alloc),
        Some(Passing::Nothing) => Ok(()),
    }
}

#[cycle(expression)]
fn arguments_of(
    arguments: &Items<Expr>,
    function: Option<usize>,
    state: &mut State<'_>,
    alloc: Global,
) -> Result<Items<Expr>, NoMemory>
    ensures made { Makes (arguments_made function 0 [] (map seen arguments.now) state.old) result state.new }
{
    let mut done = room_for(alloc, arguments.len())?;
    for (place, argument) in arguments.as_slice().iter().enumerate() {
        let passing = passing_of(argument, state.slot(function, place), state);
        argument_of(argument, passing, &mut done, state, alloc)?;
    }
    Ok(done)
}

/// A call without the forms of structs.
pub fn call_of(
    call: &Call<Expr>,
    state: &mut State<'_>,
    alloc: Global,
) -> Result<Call<Expr>, NoMemory>
    ensures made { Makes (call_made (call_seen call.now) state.old) result state.new }
{
    state.see_use(&call.name);
    let function = state.meaning(call.name.name.bytes()).function();
    let arguments = arguments_of(&call.arguments, function, state, alloc)?;
    Ok(Call {
        name: copied_name(&call.name, alloc)?,
        arguments,
    })
}

/// An expression without the forms of structs.
#[cycle(expression)]
pub fn expression_of(whole: &Expr, state: &mut State<'_>, alloc: Global) -> Result<Expr, NoMemory>
    ensures made { Makes (expanded whole.now state.old) result state.new }
{
    match whole {
        Expr::Or(chain) => {
            let first = Boxed::new(alloc, expression_of(chain.first.get(), state, alloc)?)?;
            let rest = truths(&chain.rest, state, alloc)?;
            Ok(Expr::Or(Chain {
                at: chain.at,
                first,
                rest,
            }))
        }
        Expr::And(chain) => {
            let first = Boxed::new(alloc, expression_of(chain.first.get(), state, alloc)?)?;
            let rest = truths(&chain.rest, state, alloc)?;
            Ok(Expr::And(Chain {
                at: chain.at,
                first,
                rest,
            }))
        }
        Expr::Equality(chain) => {
            let first = Boxed::new(alloc, expression_of(chain.first.get(), state, alloc)?)?;
            let rest = equalities(&chain.rest, state, alloc)?;
            Ok(Expr::Equality(Chain {
                at: chain.at,
                first,
                rest,
            }))
        }
        Expr::Relation(chain) => {
            let first = Boxed::new(alloc, expression_of(chain.first.get(), state, alloc)?)?;
            let rest = relations(&chain.rest, state, alloc)?;
            Ok(Expr::Relation(Chain {
                at: chain.at,
                first,
                rest,
            }))
        }
        Expr::Sum(chain) => {
            let first = Boxed::new(alloc, expression_of(chain.first.get(), state, alloc)?)?;
            let rest = sums(&chain.rest, state, alloc)?;
            Ok(Expr::Sum(Chain {
                at: chain.at,
                first,
                rest,
            }))
        }
        Expr::Product(chain) => {
            let first = Boxed::new(alloc, expression_of(chain.first.get(), state, alloc)?)?;
            let rest = products(&chain.rest, state, alloc)?;
            Ok(Expr::Product(Chain {
                at: chain.at,
                first,
                rest,
            }))
        }
        Expr::Unary { mark, at, operand } => {
            let operand = Boxed::new(alloc, expression_of(operand.get(), state, alloc)?)?;
            Ok(Expr::Unary {
                mark: *mark,
                at: *at,
                operand,
            })
        }
        Expr::Cast { at, to, operand } => {
            let operand = Boxed::new(alloc, expression_of(operand.get(), state, alloc)?)?;
            Ok(Expr::Cast {
                at: *at,
                to: *to,
                operand,
            })
        }
        Expr::Number { at, value } => Ok(Expr::Number {
            at: *at,
            value: *value,
        }),
        Expr::Spot(spot) => {
            let kind = kind_of(&spot.kind, state, alloc)?;
            Ok(Expr::Spot(Spot { at: spot.at, kind }))
        }
        Expr::Call(call) => {
            state.see_use(&call.name);
            let function = state.meaning(call.name.name.bytes()).function();
            let arguments = arguments_of(&call.arguments, function, state, alloc)?;
            Ok(Expr::Call(Call {
                name: copied_name(&call.name, alloc)?,
                arguments,
            }))
        }
        Expr::Parenthesis { at, inner } => {
            let inner = Boxed::new(alloc, expression_of(inner.get(), state, alloc)?)?;
            Ok(Expr::Parenthesis { at: *at, inner })
        }
        Expr::Address { at, spot } => {
            let kind = kind_of(&spot.kind, state, alloc)?;
            Ok(address_of(*at, Spot { at: spot.at, kind }))
        }
    }
}
