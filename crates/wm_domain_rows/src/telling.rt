// What a state tells, beside what enumerated points tell.

ghost use Rattle.std.specs.Prelude.{◌≡◌, ◌<◌, ◌≤◌, IfOk};
ghost use Rattle.wm_domain.specs.Forms.{IsForm};
ghost use Rattle.wm_domain.specs.States.{count_of, array_count};
ghost use Rattle.wm_domain_rows.specs.Drawn.{IsSmall};

use crate::forms::two_form;
use crate::points::{Point, allows, between, cells_over, form_over, lies, range_over};
use crate::shapes::{arrays, count};
use crate::spreading::all_points;
use std::alloc::Global;
use wm_domain::{Domain, Form, Shape, Term};
use wm_interval::Interval;
use wm_ops::NoMemory;

// the sum of a term of `v` and one of `w`; the remainders of the number tell their signs
fn pair(alloc: Global, count: u32, v: u32, w: u32, signs: u32) -> Result<Form, NoMemory>
    requires order { w < v }
    requires inside { v < count }
    ensures { IfOk result (IsForm count) }
{
    let first = Term {
        variable: v,
        negative: signs % 2 == 1,
    };
    let second = Term {
        variable: w,
        negative: signs / 2 == 1,
    };
    let form = two_form(alloc, first, second, 0)?;
    Ok(form)
}

// the range of a term where the variable has the range
fn turned(range: Interval, negative: bool) -> Interval {
    if negative {
        return between(range.high.wrapping_neg(), range.low.wrapping_neg());
    }
    range
}

// the values of the sum of two terms that vary by themselves
fn sum_apart(points: &[Point], v: u32, w: u32, signs: u32) -> Option<Interval> {
    match range_over(points, v) {
        None => None,
        Some(one) => match range_over(points, w) {
            None => None,
            Some(other) => {
                let a = turned(one, signs % 2 == 1);
                let b = turned(other, signs / 2 == 1);
                Some(between(a.low.wrapping_add(b.low), a.high.wrapping_add(b.high)))
            }
        },
    }
}

// the values of the sum of two terms in the least state of the points
fn sum_over<D: Domain>(
    shape: &Shape,
    points: &[Point],
    v: u32,
    w: u32,
    signs: u32,
    form: &Form,
) -> Option<Interval> {
    let group = shape.group.items().len();
    if D::PAIRS && (v as usize) < group && (w as usize) < group {
        return form_over(points, form);
    }
    sum_apart(points, v, w, signs)
}

/// Whether the state is the least one of the points: it is empty where there is none, and what it tells of each variable, of
/// each two terms and of each array are the least and the greatest numbers over them.
pub(crate) fn agrees<D: Domain>(
    alloc: Global,
    shape: &Shape,
    state: &D,
    points: &[Point],
) -> Result<bool, NoMemory>
    requires small { IsSmall shape.now }
    requires like { D.shape_of state.now ≡ shape.now }
{
    if state.is_empty() != points.is_empty() {
        return Ok(false);
    }
    for v in 0..count(shape) {
        if state.range(v) != range_over(points, v) {
            return Ok(false);
        }
        if !sums_agree(alloc, shape, state, points, v)? {
            return Ok(false);
        }
    }
    Ok(cells_agree(shape, state, points))
}

// whether the sums of the variable and those before it agree
fn sums_agree<D: Domain>(
    alloc: Global,
    shape: &Shape,
    state: &D,
    points: &[Point],
    v: u32,
) -> Result<bool, NoMemory>
    requires small { IsSmall shape.now }
    requires like { D.shape_of state.now ≡ shape.now }
    requires inside { v < count_of shape.now }
{
    for w in 0..v {
        for signs in 0..4 {
            let form = pair(alloc, count(shape), v, w, signs)?;
            if state.form(&form) != sum_over::<D>(shape, points, v, w, signs, &form) {
                return Ok(false);
            }
        }
    }
    Ok(true)
}

// whether the summaries agree
fn cells_agree<D: Domain>(shape: &Shape, state: &D, points: &[Point]) -> bool
    requires small { IsSmall shape.now }
    requires like { D.shape_of state.now ≡ shape.now }
{
    for a in 0..arrays(shape) {
        match state.array(a) {
            None => {
                if !points.is_empty() {
                    return false;
                }
            }
            Some(summary) => {
                if points.is_empty() {
                    return false;
                }
                if summary != cells_over(points, a) {
                    return false;
                }
            }
        }
    }
    true
}

/// A form, and the least and the greatest value of it that a state tells.
#[derive(Drop)]
pub(crate) struct Bound {
    form: Form,
    range: Interval,
}

/// The sums of each two variables and of their negatives, with what the state tells of them; none where it has no point.
pub(crate) fn bounds_of<D: Domain>(
    alloc: Global,
    shape: &Shape,
    state: &D,
) -> Result<Vec<Bound>, NoMemory>
    requires small { IsSmall shape.now }
    requires like { D.shape_of state.now ≡ shape.now }
{
    let mut bounds = Vec::new(alloc);
    for v in 0..count(shape) {
        push_bounds(&mut bounds, alloc, shape, state, v)?;
    }
    Ok(bounds)
}

// pushes those of the variable and those before it
fn push_bounds<D: Domain>(
    bounds: &mut Vec<Bound>,
    alloc: Global,
    shape: &Shape,
    state: &D,
    v: u32,
) -> Result<(), NoMemory>
    requires small { IsSmall shape.now }
    requires like { D.shape_of state.now ≡ shape.now }
    requires inside { v < count_of shape.now }
{
    for w in 0..v {
        for signs in 0..4 {
            let form = pair(alloc, count(shape), v, w, signs)?;
            match state.form(&form) {
                None => {},
                Some(range) => bounds.push(Bound { form, range })?,
            }
        }
    }
    Ok(())
}

/// Whether the point is one that the state's ranges and summaries, and these bounds, tell.
pub(crate) fn tells<D: Domain>(shape: &Shape, state: &D, bounds: &[Bound], point: &Point) -> bool
    requires small { IsSmall shape.now }
    requires like { D.shape_of state.now ≡ shape.now }
{
    for v in 0..count(shape) {
        match state.range(v) {
            None => return false,
            Some(range) => {
                if !lies(range, point.at(v)) {
                    return false;
                }
            }
        }
    }
    for bound in bounds {
        if !lies(bound.range, point.form(&bound.form)) {
            return false;
        }
    }
    cells_tell(shape, state, point)
}

// whether the cells are those that the summaries allow
fn cells_tell<D: Domain>(shape: &Shape, state: &D, point: &Point) -> bool
    requires small { IsSmall shape.now }
    requires like { D.shape_of state.now ≡ shape.now }
{
    for a in 0..arrays(shape) {
        match state.array(a) {
            None => return false,
            Some(summary) => {
                if !allows(summary, point.cell(a)) {
                    return false;
                }
            }
        }
    }
    true
}

/// The points that the state tells.
pub(crate) fn points_of<D: Domain>(
    alloc: Global,
    shape: &Shape,
    state: &D,
) -> Result<Vec<Point>, NoMemory>
    requires small { IsSmall shape.now }
    requires like { D.shape_of state.now ≡ shape.now }
{
    let mut inside = Vec::new(alloc);
    if state.is_empty() {
        return Ok(inside);
    }
    let bounds = bounds_of(alloc, shape, state)?;
    let all = all_points(alloc, shape)?;
    for point in all.as_slice() {
        if tells(shape, state, bounds.as_slice(), point) {
            inside.push(*point)?;
        }
    }
    Ok(inside)
}
