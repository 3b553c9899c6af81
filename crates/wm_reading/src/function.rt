// The reading of a function with a block.
ghost use Rattle.std.specs.Prelude.{◌≡◌, [], IfOk};
ghost use Rattle.wm_marks.specs.Marking.{Gives};
ghost use Rattle.wm_source.specs.Pieces.{written_items};
ghost use Rattle.wm_reading.specs.Functions as spec;

use crate::finish::locals;
use crate::outline::{maybe_width, slot_of};
use sqlite_items::Items;
use std::alloc::Global;
use wm_body::{Work, array_length, items};
use wm_lang::{Block, BlockItem, Function, Name, Parameter, ParameterKind, Position, Statement};
use wm_marks::{Marks, number_of};
use wm_ops::{List, NoMemory, Width};
use wm_program::{Array, Body, FunctionInfo, Scalar};
use wm_scope::{Meaning, Names, Scope, Slot, TokenFault};
use wm_source::ends_in_return;

#[tactic(auto, unfolding(crate::specs::Functions::brackets))]
/// Looks at the brackets of a parameter. The length of a view is not kept.
fn look_at_brackets(
    kind: &ParameterKind,
    at: Position,
    alloc: Global,
    scope: &Scope,
    marks: &mut Marks,
) -> Result<(), NoMemory>
    ensures { Gives (spec.brackets kind.now at scope.now marks.old) result marks.new }
{
    match kind {
        ParameterKind::Scalar(_) => Ok(()),
        ParameterKind::Array { length, .. } => match length {
            None => Ok(()),
            Some(_) => {
                array_length(length, 0, at, alloc, scope, marks)?;
                Ok(())
            }
        },
        ParameterKind::Pointer(_) => Ok(()),
        ParameterKind::Struct(_) => Ok(()),
    }
}

fn parameter_meaning(slot: Slot, local: u32, number: u32) -> Meaning
    ensures { result ≡ spec.parameter_meaning slot local number }
{
    let width = slot.width;
    let is_const = slot.is_const;
    if slot.is_view {
        return Meaning::Array {
            array: Array::View { local, number },
            width,
            is_const,
        };
    }
    Meaning::Scalar {
        scalar: Scalar::Local(local),
        width,
        is_const,
    }
}

fn views_after(slot: Slot, views: u32) -> Result<u32, NoMemory>
    ensures { IfOk result (λ after. after ≡ spec.views_after slot views) }
{
    if slot.is_view {
        return number_of(views as usize + 1);
    }
    Ok(views)
}

#[tactic(auto, unfolding(crate::specs::Functions::parameter))]
/// A parameter behind so many view parameters; gives how many there are then.
fn parameter(
    parameter: &Parameter,
    views: u32,
    alloc: Global,
    work: &mut Work,
) -> Result<u32, NoMemory>
    ensures { Gives (spec.parameter views parameter.now work.old) result work.new }
{
    match &parameter.name {
        None => Ok(views),
        Some(name) => {
            let slot = slot_of(parameter);
            look_at_brackets(
                &parameter.kind,
                name.at,
                alloc,
                &work.scope,
                &mut work.marks,
            )?;
            work.check(name);
            let local = work.make_local(alloc, name, slot.width, None, slot.is_view)?;
            work.declare(alloc, name, parameter_meaning(slot, local, views))?;
            let after = views_after(slot, views)?;
            Ok(after)
        }
    }
}

fn parameters(parameters: &[Parameter], alloc: Global, work: &mut Work) -> Result<u32, NoMemory>
    ensures { Gives (spec.parameters 0 parameters.now work.old) result work.new }
{
    let mut views = 0;
    for one in parameters {
        views = parameter(one, views, alloc, work)?;
    }
    Ok(views)
}

fn copied(alloc: Global, numbers: &[u32]) -> Result<List<u32>, NoMemory>
    ensures { IfOk result (λ list. list ≡ numbers.now) }
{
    let mut list = List::new(alloc);
    for number in numbers {
        list.push(*number)?;
    }
    Ok(list)
}

#[tactic(auto, unfolding(crate::specs::Functions::begin))]
/// Begins the function of a number, with what is added at each of its calls.
fn begin(
    function: &Function,
    number: u32,
    offsets: &[u32],
    alloc: Global,
    work: &mut Work,
) -> Result<(), NoMemory>
    ensures { Gives (spec.begin number offsets.now function.now work.old) result work.new }
{
    work.marks.begin_function(alloc);
    work.scope.locals = Names::new(alloc);
    work.scope.outer = 0;
    work.scope.offsets = copied(alloc, offsets)?;
    work.locals = List::new(alloc);
    work.function = number;
    work.name = Name::new(alloc, function.name.name.bytes())?;
    work.result = maybe_width(function.result);
    Ok(())
}

#[tactic(auto, unfolding(crate::specs::Functions::ended))]
/// Tells a function with a result that can end without a return.
fn check_ending(
    at: Position,
    width: Option<Width>,
    items: &Items<BlockItem<Statement>>,
    marks: &mut Marks,
)
    ensures { marks.new ≡ spec.ended at width (written_items items.now) marks.old }
{
    if width.is_some() {
        if ends_in_return(items) {
            return;
        }
        marks.note(TokenFault::MissingReturn, at);
    }
}

fn token_count(first: Position, last: Position) -> Result<u32, NoMemory>
    ensures { IfOk result (λ count. count ≡ spec.token_count first last) }
{
    let past = last.token.saturating_sub(first.token);
    if past < 4294967295 {
        return Ok(past as u32 + 1);
    }
    Err(NoMemory)
}

/// Leaves the function.
fn end_work(function: &Function, block: &Block<Statement>, alloc: Global, work: &mut Work)
    ensures { work.new ≡ spec.ended_work function.now block.now work.old }
{
    let result = maybe_width(function.result);
    check_ending(function.name.at, result, &block.items, &mut work.marks);
    work.scope.locals = Names::new(alloc);
    work.scope.outer = 0;
}

#[tactic(auto, unfolding(crate::specs::Functions::finish))]
fn finish(
    function: &Function,
    block: &Block<Statement>,
    parameters: u32,
    body: Body,
    alloc: Global,
    work: &mut Work,
) -> Result<FunctionInfo, NoMemory>
    ensures { Gives (spec.finish parameters body.statements function.now block.now work.old) result work.new }
{
    let result = maybe_width(function.result);
    let name = Name::new(alloc, function.name.name.bytes())?;
    let locals = locals(alloc, work.locals.items(), &work.marks.locals)?;
    let tokens = token_count(block.first, block.last)?;
    end_work(function, block, alloc, work);
    Ok(FunctionInfo {
        name,
        result,
        locals,
        parameters,
        body,
        tokens,
    })
}

#[tactic(auto, unfolding(crate::specs::Functions::function))]
/// A function with its block, by its number.
pub fn function(
    function: &Function,
    block: &Block<Statement>,
    number: u32,
    offsets: &[u32],
    alloc: Global,
    work: &mut Work,
) -> Result<FunctionInfo, NoMemory>
    ensures function { Gives (spec.function number offsets.now function.now block.now work.old) result work.new }
{
    begin(function, number, offsets, alloc, work)?;
    parameters(function.parameters.as_slice(), alloc, work)?;
    let count = number_of(work.locals.items().len())?;
    let statements = items(&block.items, alloc, 0, work)?;
    finish(function, block, count, Body { statements }, alloc, work)
}
