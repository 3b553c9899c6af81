// The step of a for loop: what its counter is changed by with each turn, told by the text of its step part.
ghost use Rattle.std.specs.Prelude.{◌≡◌, [], ◌∷◌};
ghost use Rattle.wm_source.specs.Reading.{source_of};
ghost use Rattle.wm_source.specs.Steps.{same_bytes, size_of, constant_size, is_named, sum_size, moves, call_size, moved_size, assigned_size, assignment_size, stepped_size, part_size, step_of};
ghost use Rattle.wm_source.specs.Written.{sum_parts, written_sources};
ghost use Rattle.wm_source.specs.Constants.{constant_of};
ghost use Rattle.wm_source.specs.Firsts.{name_of};

use crate::constants::constant;
use crate::firsts::name;
use sqlite_items::Boxed;
use wm_lang::{AssignMark, Call, Chain, Expr, Identifier, Simple, SpotKind, SumMark};

fn size(z: i64) -> Option<u32>
    ensures size { result ≡ size_of z }
{
    let size = z.unsigned_abs();
    if 0 < size && size < 32768 {
        return Some(size as u32);
    }
    None
}

fn constant_step(expression: &Expr) -> Option<u32>
    ensures size { result ≡ constant_size (constant_of expression.now) }
{
    match constant(expression) {
        None => None,
        Some(z) => size(z),
    }
}

fn names(variable: &Identifier, expression: &Expr) -> bool
    ensures named { result ≡ is_named variable.now (name_of expression.now) }
{
    match name(expression) {
        None => false,
        Some(other) => variable.name.bytes() == other.name.bytes(),
    }
}

/// The step that a sum of two parts tells: the variable and a constant.
fn sum_step(variable: &Identifier, chain: &Chain<SumMark, Expr>) -> Option<u32>
    ensures size { result ≡ sum_size variable.now (source_of chain.now.first) (sum_parts chain.now.rest) }
{
    match chain.rest.as_slice().split_first() {
        None => None,
        Some((part, rest)) => match rest.split_first() {
            Some(_) => None,
            None => {
                if names(variable, chain.first.get()) {
                    return constant_step(&part.operand);
                }
                None
            }
        },
    }
}

fn moves_by_name(called: &Identifier) -> bool
    ensures moves { result ≡ moves called.now }
{
    if called.name.bytes() == b"add".as_slice() {
        return true;
    }
    called.name.bytes() == b"sub".as_slice()
}

/// The step that a call of `add` or `sub` tells.
fn moving_step(
    variable: &Identifier,
    called: &Identifier,
    first: &Expr,
    second: &Expr,
) -> Option<u32>
    ensures size { result ≡ call_size variable.now called.now (written_sources (first.now ∷ second.now ∷ [])) }
{
    if moves_by_name(called) {
        if names(variable, first) {
            return constant_step(second);
        }
        return None;
    }
    None
}

fn call_step(variable: &Identifier, call: &Call<Expr>) -> Option<u32>
    ensures size { result ≡ call_size variable.now call.now.name (written_sources call.now.arguments) }
{
    match call.arguments.as_slice().split_first() {
        None => None,
        Some((first, rest)) => match rest.split_first() {
            None => None,
            Some((second, rest)) => match rest.split_first() {
                Some(_) => None,
                None => moving_step(variable, &call.name, first, second),
            },
        },
    }
}

fn moved(variable: &Identifier, value: &Expr) -> Option<u32>
    ensures size { result ≡ moved_size variable.now (source_of value.now) }
{
    match value {
        Expr::Sum(chain) => sum_step(variable, chain),
        Expr::Call(call) => call_step(variable, call),
        Expr::Parenthesis { inner, .. } => moved(variable, inner.get()),
        Expr::Or(_)
        | Expr::And(_)
        | Expr::Equality(_)
        | Expr::Relation(_)
        | Expr::Product(_)
        | Expr::Unary { .. }
        | Expr::Cast { .. }
        | Expr::Number { .. }
        | Expr::Spot(_)
        | Expr::Address { .. } => None,
    }
}

fn assigned(variable: &Identifier, mark: AssignMark, value: &Expr) -> Option<u32>
    ensures size { result ≡ assigned_size variable.now mark value.now }
{
    match mark {
        AssignMark::Plain => moved(variable, value),
        AssignMark::Plus => constant_step(value),
        AssignMark::Minus => constant_step(value),
        AssignMark::Times => None,
    }
}

fn assignment(kind: &SpotKind<Boxed<Expr>>, mark: AssignMark, value: &Expr) -> Option<u32>
    ensures size { result ≡ assignment_size kind.now mark value.now }
{
    match kind {
        SpotKind::Scalar { name } => assigned(name, mark, value),
        SpotKind::Element { .. } => None,
        SpotKind::Pointed { .. } => None,
        SpotKind::Member { .. } => None,
        SpotKind::MemberElement { .. } => None,
    }
}

fn stepped(kind: &SpotKind<Boxed<Expr>>) -> Option<u32>
    ensures size { result ≡ stepped_size kind.now }
{
    match kind {
        SpotKind::Scalar { .. } => Some(1),
        SpotKind::Element { .. } => None,
        SpotKind::Pointed { .. } => None,
        SpotKind::Member { .. } => None,
        SpotKind::MemberElement { .. } => None,
    }
}

fn part(simple: &Simple) -> Option<u32>
    ensures size { result ≡ part_size simple.now }
{
    match simple {
        Simple::Assign {
            spot,
            mark,
            value,
            ..
        } => assignment(&spot.kind, *mark, value),
        Simple::StepAfter { spot, .. } => stepped(&spot.kind),
        Simple::StepBefore { spot, .. } => stepped(&spot.kind),
        Simple::Call(_) => None,
    }
}

/// The step of a for loop: the size of c, from 1 to 32767, in the first part of its step part that is `v++`, `++v`, `v--`,
/// `--v` (c is 1), `v += c`, `v -= c`, `v = v + c`, `v = v - c`, `v = add(v, c)` or `v = sub(v, c)` with a constant c and
/// a name v; 1 where there is none.
pub fn step(simples: &[Simple]) -> u32
    ensures step { result ≡ step_of simples.now }
{
    for simple in simples {
        if let Some(size) = part(simple) {
            return size;
        }
    }
    1
}
