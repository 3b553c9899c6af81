// Each call on a drawn state, beside the enumeration of what it is to leave.

ghost use Rattle.std.specs.Prelude.{◌≡◌, ◌<◌, IfOk};
ghost use Rattle.wm_domain.specs.States.{count_of};
ghost use Rattle.wm_domain_rows.specs.Drawn.{IsSmall};

use crate::draws::Draws;
use crate::picks::draw_picks;
use crate::points::{Point, form_over, lies, meets};
use crate::shapes::{arrays, count, full_array, full_range, is_inside};
use crate::spreading::{push_cells, push_each, spread, spread_cells, unset_points};
use crate::telling::{agrees, bounds_of, tells};
use std::alloc::Global;
use wm_domain::{Domain, Shape};
use wm_ops::NoMemory;

/// Whether the state is the least one of those of the points that lie in the full ranges.
fn leaves<D: Domain>(
    alloc: Global,
    shape: &Shape,
    state: &D,
    points: &[Point],
) -> Result<bool, NoMemory>
    requires small { IsSmall shape.now }
    requires like { D.shape_of state.now ≡ shape.now }
{
    let mut inside = Vec::new(alloc);
    for point in points {
        if is_inside(shape, point) {
            inside.push(*point)?;
        }
    }
    agrees(alloc, shape, state, inside.as_slice())
}

/// A new state.
pub(crate) fn full_agrees<D: Domain>(alloc: Global, shape: &Shape) -> Result<bool, NoMemory>
    requires small { IsSmall shape.now }
{
    let state = D::full(alloc, shape)?;
    let expected = unset_points(alloc, shape)?;
    leaves(alloc, shape, &state, expected.as_slice())
}

/// A copy.
pub(crate) fn copy_agrees<D: Domain>(
    alloc: Global,
    shape: &Shape,
    state: &D,
    points: &[Point],
) -> Result<bool, NoMemory>
    requires small { IsSmall shape.now }
    requires like { D.shape_of state.now ≡ shape.now }
{
    let after = state.copy(alloc)?;
    leaves(alloc, shape, &after, points)
}

/// A copy without a point.
pub(crate) fn clear_agrees<D: Domain>(
    alloc: Global,
    shape: &Shape,
    state: &D,
) -> Result<bool, NoMemory>
    requires small { IsSmall shape.now }
    requires like { D.shape_of state.now ≡ shape.now }
{
    let mut after = state.copy(alloc)?;
    after.clear();
    leaves(alloc, shape, &after, &[])
}

/// The values of a form.
pub(crate) fn form_agrees<D: Domain>(
    alloc: Global,
    draws: &mut Draws,
    shape: &Shape,
    state: &D,
    points: &[Point],
) -> Result<bool, NoMemory>
    requires small { IsSmall shape.now }
    requires like { D.shape_of state.now ≡ shape.now }
{
    let form = draws.form(alloc, count(shape))?;
    Ok(state.form(&form) == form_over(points, &form))
}

/// A form that is kept.
pub(crate) fn keep_agrees<D: Domain>(
    alloc: Global,
    draws: &mut Draws,
    shape: &Shape,
    state: &D,
    points: &[Point],
) -> Result<bool, NoMemory>
    requires small { IsSmall shape.now }
    requires like { D.shape_of state.now ≡ shape.now }
{
    let form = draws.form(alloc, count(shape))?;
    let relation = draws.relation();
    let mut after = state.copy(alloc)?;
    after.keep(&form, relation);
    let mut expected = Vec::new(alloc);
    let values = form_over(points, &form);
    for point in points {
        if meets(values, relation, point.form(&form)) {
            expected.push(*point)?;
        }
    }
    leaves(alloc, shape, &after, expected.as_slice())
}

/// A variable that gets the value of a form.
pub(crate) fn assign_form_agrees<D: Domain>(
    alloc: Global,
    draws: &mut Draws,
    shape: &Shape,
    state: &D,
    points: &[Point],
) -> Result<bool, NoMemory>
    requires small { IsSmall shape.now }
    requires like { D.shape_of state.now ≡ shape.now }
{
    let v = draws.index(count(shape));
    let form = draws.simple_form(alloc, count(shape))?;
    let mut after = state.copy(alloc)?;
    after.assign_form(v, &form);
    let mut expected = Vec::new(alloc);
    for point in points {
        expected.push(point.with(v, point.form(&form)))?;
    }
    leaves(alloc, shape, &after, expected.as_slice())
}

/// A variable that gets a number near another, or near itself.
pub(crate) fn assign_near_agrees<D: Domain>(
    alloc: Global,
    draws: &mut Draws,
    shape: &Shape,
    state: &D,
    points: &[Point],
) -> Result<bool, NoMemory>
    requires small { IsSmall shape.now }
    requires like { D.shape_of state.now ≡ shape.now }
{
    let v = draws.index(count(shape));
    let w = draws.index(count(shape));
    let near = draws.interval(3, 3);
    let range = draws.interval(4, 5);
    let mut after = state.copy(alloc)?;
    after.assign_near(v, w, near, range);
    let mut expected = Vec::new(alloc);
    for point in points {
        let mut numbers = Vec::new(alloc);
        push_each(&mut numbers, point, v, range)?;
        for number in numbers.as_slice() {
            if lies(near, number.at(v).wrapping_sub(point.at(w))) {
                expected.push(*number)?;
            }
        }
    }
    leaves(alloc, shape, &after, expected.as_slice())
}

/// A variable that gets any number of a range.
pub(crate) fn assign_range_agrees<D: Domain>(
    alloc: Global,
    draws: &mut Draws,
    shape: &Shape,
    state: &D,
    points: &[Point],
) -> Result<bool, NoMemory>
    requires small { IsSmall shape.now }
    requires like { D.shape_of state.now ≡ shape.now }
{
    let v = draws.index(count(shape));
    let range = draws.interval(4, 5);
    let mut after = state.copy(alloc)?;
    after.assign_range(v, range);
    let expected = spread(alloc, points, v, range)?;
    leaves(alloc, shape, &after, expected.as_slice())
}

/// An array whose cells are replaced.
pub(crate) fn set_array_agrees<D: Domain>(
    alloc: Global,
    draws: &mut Draws,
    shape: &Shape,
    state: &D,
    points: &[Point],
) -> Result<bool, NoMemory>
    requires small { IsSmall shape.now }
    requires like { D.shape_of state.now ≡ shape.now }
{
    if arrays(shape) == 0 {
        return Ok(true);
    }
    let a = draws.index(arrays(shape));
    let summary = draws.summary();
    let mut after = state.copy(alloc)?;
    after.set_array(a, summary);
    let expected = spread_cells(alloc, points, a, summary)?;
    leaves(alloc, shape, &after, expected.as_slice())
}

/// A number that is written to a cell of an array.
pub(crate) fn write_agrees<D: Domain>(
    alloc: Global,
    draws: &mut Draws,
    shape: &Shape,
    state: &D,
    points: &[Point],
) -> Result<bool, NoMemory>
    requires small { IsSmall shape.now }
    requires like { D.shape_of state.now ≡ shape.now }
{
    if arrays(shape) == 0 {
        return Ok(true);
    }
    let a = draws.index(arrays(shape));
    let range = draws.interval(3, 2);
    let length: u32 = if draws.coin() { 1 } else { 40 };
    let mut after = state.copy(alloc)?;
    after.write(a, range, length);
    let mut expected = Vec::new(alloc);
    if let Some(fits) = range.meet(full_array(shape, a)) {
        for point in points {
            push_cells(&mut expected, point, a, fits)?;
            if length != 1 {
                expected.push(*point)?;
            }
        }
    }
    leaves(alloc, shape, &after, expected.as_slice())
}

/// A join with another.
pub(crate) fn join_agrees<D: Domain>(
    alloc: Global,
    shape: &Shape,
    state: &D,
    points: &[Point],
    other: &D,
    others: &[Point],
) -> Result<bool, NoMemory>
    requires small { IsSmall shape.now }
    requires like { D.shape_of state.now ≡ shape.now }
    requires other { D.shape_of other.now ≡ shape.now }
{
    let mut after = state.copy(alloc)?;
    after.join_with(other);
    let mut expected = Vec::new(alloc);
    for point in points {
        expected.push(*point)?;
    }
    for point in others {
        expected.push(*point)?;
    }
    leaves(alloc, shape, &after, expected.as_slice())
}

/// Whether it lies within another, and within its join with it.
pub(crate) fn within_agrees<D: Domain>(
    alloc: Global,
    shape: &Shape,
    state: &D,
    points: &[Point],
    other: &D,
) -> Result<bool, NoMemory>
    requires small { IsSmall shape.now }
    requires like { D.shape_of state.now ≡ shape.now }
    requires other { D.shape_of other.now ≡ shape.now }
{
    let mut joined = other.copy(alloc)?;
    joined.join_with(state);
    if !state.within(&joined) {
        return Ok(false);
    }
    let bounds = bounds_of(alloc, shape, other)?;
    let mut inside = true;
    for point in points {
        if !tells(shape, other, bounds.as_slice(), point) {
            inside = false;
        }
    }
    Ok(state.within(other) == inside)
}

/// A state of another shape, of some of the variables and arrays.
pub(crate) fn project_agrees<D: Domain>(
    alloc: Global,
    draws: &mut Draws,
    shape: &Shape,
    state: &D,
    points: &[Point],
) -> Result<bool, NoMemory>
    requires small { IsSmall shape.now }
    requires like { D.shape_of state.now ≡ shape.now }
{
    let next = draws.shape(alloc)?;
    let picks = draw_picks(alloc, draws, count(shape), count(&next))?;
    let array_picks = draw_picks(alloc, draws, arrays(shape), arrays(&next))?;
    let after = state.project(alloc, &next, picks.as_slice(), array_picks.as_slice())?;
    let mut expected = Vec::new(alloc);
    for point in points {
        expected.push(picked(point, picks.as_slice(), array_picks.as_slice()))?;
    }
    for k in 0..count(&next) {
        if picks[k as usize].is_none() {
            expected = spread(alloc, expected.as_slice(), k, full_range(&next, k))?;
        }
    }
    leaves(alloc, &next, &after, expected.as_slice())
}

// the numbers and the cells that are picked of the point
fn picked(point: &Point, picks: &[Option<u32>], array_picks: &[Option<u32>]) -> Point {
    let mut next = Point::zero();
    let mut k: u32 = 0;
    for pick in picks {
        if let Some(v) = *pick {
            next = next.with(k, point.at(v));
        }
        k = k.wrapping_add(1);
    }
    let mut a: u32 = 0;
    for pick in array_picks {
        if let Some(b) = *pick {
            next = next.with_cell(a, point.cell(b));
        }
        a = a.wrapping_add(1);
    }
    next
}
