// Lengths of arrays, and initialisers that are to be constant.
ghost use Rattle.std.specs.Prelude.{◌≡◌, [], IfOk};
ghost use Rattle.wm_marks.specs.Marking.{Gives};
ghost use Rattle.wm_body.specs.Lengths as spec;

use sqlite_items::Items;
use std::alloc::Global;
use wm_lang::{Expr, InitializerList, Position};
use wm_marks::Marks;
use wm_ops::{List, NoMemory, Width};
use wm_scope::{Scope, TokenFault};
use wm_source::{constant, first, wrap};
use wm_value::number;

#[tactic(auto, unfolding(crate::specs::Lengths::no_constant))]
/// Tells what is wrong with an expression that is to be constant and is not.
fn no_constant(
    expression: &Expr,
    alloc: Global,
    scope: &Scope,
    marks: &mut Marks,
) -> Result<(), NoMemory>
    ensures { Gives (spec.no_constant scope.now expression.now marks.old) result marks.new }
{
    number(expression, alloc, scope, marks)?;
    marks.note(TokenFault::NotConstant, first(expression));
    Ok(())
}

#[tactic(auto, unfolding(crate::specs::Lengths::constant_in))]
/// The number of an expression that is to be constant, of a type.
pub fn constant_of(
    expression: &Expr,
    width: Width,
    alloc: Global,
    scope: &Scope,
    marks: &mut Marks,
) -> Result<i64, NoMemory>
    ensures { Gives (spec.constant_in scope.now width expression.now marks.old) result marks.new }
{
    match constant(expression) {
        Some(z) => Ok(wrap(width, z)),
        None => {
            no_constant(expression, alloc, scope, marks)?;
            Ok(0)
        }
    }
}

/// The numbers of initialisers that are to be constant, of a type.
pub fn constants(
    values: &[Expr],
    width: Width,
    alloc: Global,
    scope: &Scope,
    marks: &mut Marks,
) -> Result<Items<i64>, NoMemory>
    ensures constants { Gives (spec.constants_in scope.now width [] values.now marks.old) result marks.new }
{
    let mut found = Items::new(alloc);
    for value in values {
        found.push(constant_of(value, width, alloc, scope, marks)?)?;
    }
    Ok(found)
}

/// The numbers as a list.
pub fn listed(alloc: Global, numbers: &[i64]) -> Result<List<i64>, NoMemory>
    ensures listed { IfOk result (λ list. list ≡ numbers.now) }
{
    let mut list = List::new(alloc);
    for number in numbers {
        list.push(*number)?;
    }
    Ok(list)
}

fn bad_length(at: Position, marks: &mut Marks) -> u32
    ensures { spec.bad_length at marks.old ≡ (result, marks.new) }
{
    marks.note(TokenFault::BadLength, at);
    1
}

/// A length that is told in brackets, where so many initialisers stand.
fn told_length(z: i64, count: usize, at: Position, marks: &mut Marks) -> u32
    ensures { spec.told_length z count at marks.old ≡ (result, marks.new) }
{
    let size = z.unsigned_abs();
    if z < 1 || 65536 < size {
        return bad_length(at, marks);
    }
    let length = size as u32;
    if (length as usize) < count {
        return bad_length(at, marks);
    }
    length
}

/// The length by the number of initialisers.
fn counted_length(count: usize, at: Position, marks: &mut Marks) -> u32
    ensures { spec.counted_length count at marks.old ≡ (result, marks.new) }
{
    if count < 1 || 65536 < count {
        return bad_length(at, marks);
    }
    count as u32
}

/// How many initialisers stand.
pub fn count_of(initial: &Option<InitializerList>) -> usize
    ensures count { result ≡ spec.count_of initial.now }
{
    match initial {
        None => 0,
        Some(list) => list.values.len(),
    }
}

#[tactic(auto, unfolding(crate::specs::Lengths::array_length))]
/// The length of an array, whose name stands at this place, where so many initialisers stand.
pub fn array_length(
    length: &Option<Expr>,
    count: usize,
    at: Position,
    alloc: Global,
    scope: &Scope,
    marks: &mut Marks,
) -> Result<u32, NoMemory>
    ensures length { Gives (spec.array_length scope.now length.now count at marks.old) result marks.new }
{
    match length {
        None => Ok(counted_length(count, at, marks)),
        Some(expression) => match constant(expression) {
            Some(z) => Ok(told_length(z, count, at, marks)),
            None => {
                no_constant(expression, alloc, scope, marks)?;
                Ok(1)
            }
        },
    }
}
