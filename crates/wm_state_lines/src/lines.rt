// Lines of state.
ghost use Rattle.std.specs.Prelude.{◌≡◌, ◌++◌, ◌∷◌, [], Option, Some, None, IfOk, OnOk, MatchOption};
ghost use Rattle.wm_interval.specs.Holds.{IsHullOf};
ghost use Rattle.wm_domain.specs.Changes.{IsValueOf, IsCellOf};
ghost use Rattle.wm_state_lines.specs.Lines.{lines_from, IsSummary, IsSeated, IsToldOf, AreTold, AreLines};

use std::alloc::Global;
use wm_arrays::{StateLine, Summary};
use wm_domain::{Domain, Shape};
use wm_flow::Seat;
use wm_interval::Interval;
use wm_ops::{List, NoMemory};
use wm_program::ObjectInfo;

/// The numbers of a state scalar. At the frame head the state scalars are the first variables, in their order.
fn scalar_told<D: Domain>(shape: &Shape, state: &D, k: u32) -> Result<Option<Summary>, NoMemory>
    requires shape { D.shape_of state.now ≡ shape.now }
    ensures { IfOk result (λ told. IsSummary (IsValueOf (D.holds state.now) k) told) }
{
    if k as usize >= shape.group.items().len() + shape.singles.items().len() {
        return Err(NoMemory);
    }
    match state.range(k) {
        None => Ok(Some(Summary::Empty)),
        Some(range) => Ok(Some(Summary::Range(range))),
    }
}

/// The numbers of the set cells of an array.
fn array_told<D: Domain>(shape: &Shape, state: &D, k: u32) -> Result<Option<Summary>, NoMemory>
    requires shape { D.shape_of state.now ≡ shape.now }
    ensures { IfOk result (λ told. IsSummary (IsCellOf (D.holds state.now) k) told) }
{
    if k as usize >= shape.arrays.items().len() {
        return Err(NoMemory);
    }
    match state.array(k) {
        None => Ok(Some(Summary::Empty)),
        Some(summary) => Ok(Some(summary)),
    }
}

/// What is told of an object that is no input; nothing of one that is const.
fn seated<D: Domain>(shape: &Shape, state: &D, seat: Seat) -> Result<Option<Summary>, NoMemory>
    requires shape { D.shape_of state.now ≡ shape.now }
    ensures { IfOk result (λ told. IsSeated (D.holds state.now) seat told) }
{
    match seat {
        Seat::State(k) => scalar_told(shape, state, k),
        Seat::Array(k) => array_told(shape, state, k),
        Seat::Input(_k) => Ok(None),
        Seat::Constant { .. } => Ok(None),
    }
}

/// What is told of an object.
fn told_of_one<D: Domain>(
    shape: &Shape,
    state: &D,
    object: &ObjectInfo,
    seat: Seat,
) -> Result<Option<Summary>, NoMemory>
    requires shape { D.shape_of state.now ≡ shape.now }
    ensures { IfOk result (λ told. IsToldOf (D.holds state.now) object.now.input seat told) }
{
    if object.input {
        return Ok(None);
    }
    seated(shape, state, seat)
}

/// What is told of each object.
fn told_of<D: Domain>(
    alloc: Global,
    objects: &[ObjectInfo],
    seats: &[Seat],
    shape: &Shape,
    state: &D,
) -> Result<Vec<Option<Summary>>, NoMemory>
    requires shape { D.shape_of state.now ≡ shape.now }
    ensures { IfOk result (λ told. AreTold (D.holds state.now) objects.now seats.now told.items) }
{
    let mut told = Vec::new(alloc);
    for place in 0..objects.len() {
        match seats.get(place) {
            None => return Err(NoMemory),
            Some(seat) => told.push(told_of_one(shape, state, &objects[place], *seat)?)?,
        }
    }
    Ok(told)
}

fn push_line(
    lines: &mut List<StateLine>,
    object: u32,
    summary: Option<Summary>,
) -> Result<(), NoMemory>
    ensures { OnOk result (lines.new ≡ lines.old ++ lines_from object (summary ∷ [])) }
{
    match summary {
        None => Ok(()),
        Some(summary) => lines.push(StateLine { object, summary }),
    }
}

/// A line for each object of which something is told.
fn listed(alloc: Global, told: &[Option<Summary>]) -> Result<List<StateLine>, NoMemory>
    ensures { IfOk result (λ lines. lines ≡ lines_from 0 told.now) }
{
    let mut lines = List::new(alloc);
    let mut object = 0;
    for summary in told {
        push_line(&mut lines, object, *summary)?;
        object = match u32::checked_add(object, 1) {
            Some(next) => next,
            None => return Err(NoMemory),
        };
    }
    Ok(lines)
}

/// For each object of static storage that is neither const nor an input, in their order, what its set cells hold at the points of
/// the state, which has the shape of the frame head. `seats` tells what each object is in a state.
///
/// `NoMemory`: memory ran out, or an object has no seat in the shape.
pub fn state_lines<D: Domain>(
    alloc: Global,
    objects: &[ObjectInfo],
    seats: &[Seat],
    shape: &Shape,
    state: &D,
) -> Result<List<StateLine>, NoMemory>
    requires shape { D.shape_of state.now ≡ shape.now }
    ensures lines { IfOk result (λ lines. AreLines (D.holds state.now) objects.now seats.now lines) }
{
    let told = told_of(alloc, objects, seats, shape, state)?;
    listed(alloc, told.as_slice())
}
