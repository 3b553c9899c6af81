// Worked states.

ghost use Rattle.std.specs.Prelude.{◌≡◌, ◌<◌, ◌≤◌, IfOk, All, length};
ghost use Rattle.wm_domain.specs.Points.{IsNarrow};
ghost use Rattle.wm_domain.specs.States.{IsShape, count_of, array_count};

use crate::forms::two_form;
use std::alloc::Global;
use wm_arrays::Summary;
use wm_domain::{Domain, Relation, Shape, Term};
use wm_interval::Interval;
use wm_ops::{List, NoMemory};

// so many times one range of 32 bits
fn ranges(alloc: Global, many: u64, range: Interval) -> Result<List<Interval>, NoMemory>
    requires { IsNarrow range }
    ensures long { IfOk result (λ ranges. length ranges ≡ many) }
    ensures narrow { IfOk result (λ ranges. All IsNarrow ranges) }
{
    let mut ranges = List::new(alloc);
    for _ in 0..many {
        ranges.push(range)?;
    }
    Ok(ranges)
}

// a group of so many variables from 0 to 10, and so many arrays of 16 bits
#[tactic(auto, using(crate::proofs::Sizes::append_length))]
fn grouped(alloc: Global, variables: u64, arrays: u64) -> Result<Shape, NoMemory>
    requires { variables ≤ 4 }
    ensures shape { IfOk result IsShape }
    ensures count { IfOk result (λ s. count_of s ≡ variables) }
    ensures arrays { IfOk result (λ s. array_count s ≡ arrays) }
{
    let group = ranges(alloc, variables, Interval::new(0, 10))?;
    let singles = ranges(alloc, 0, Interval::new(0, 10))?;
    let arrays = ranges(alloc, arrays, Interval::new(-32768, 32767))?;
    Ok(Shape {
        group,
        singles,
        arrays,
    })
}

const FIRST: Term = Term {
    variable: 0,
    negative: false,
};

const MINUS_FIRST: Term = Term {
    variable: 0,
    negative: true,
};

const SECOND: Term = Term {
    variable: 1,
    negative: false,
};

const MINUS_SECOND: Term = Term {
    variable: 1,
    negative: true,
};

// whether the two variables have these ranges, and the second less the first at most this
fn has<D: Domain>(
    alloc: Global,
    state: &D,
    first: Interval,
    second: Interval,
    more: i64,
) -> Result<bool, NoMemory>
    requires { count_of (D.shape_of state.now) ≡ 2 }
{
    let difference = two_form(alloc, SECOND, MINUS_FIRST, 0)?;
    if state.range(0) != Some(first) || state.range(1) != Some(second) {
        return Ok(false);
    }
    match state.form(&difference) {
        None => Ok(false),
        Some(range) => Ok(range.high == more),
    }
}

// the points of two variables from 0 to 10 of which the first is at most the second, and their sum at most 9
fn order_and_sum<D: Domain>(alloc: Global) -> Result<D, NoMemory>
    ensures { IfOk result (λ s. count_of (D.shape_of s) ≡ 2) }
{
    let shape = grouped(alloc, 2, 0)?;
    let mut state: D = D::full(alloc, &shape)?;
    let order = two_form(alloc, FIRST, MINUS_SECOND, 0)?;
    let sum = two_form(alloc, FIRST, SECOND, -9)?;
    state.keep(&order, Relation::AtMost);
    state.keep(&sum, Relation::AtMost);
    Ok(state)
}

/// An order and a sum of two variables, a copy of it, its second variable alone, and a sum that takes all points away. With
/// bounds on pairs the ranges are cut; without, the second range leaves nothing to cut.
pub(crate) fn order_and_sum_agrees<D: Domain>(alloc: Global) -> Result<bool, NoMemory> {
    let mut state: D = order_and_sum(alloc)?;
    let copy = state.copy(alloc)?;
    let half = if D::PAIRS { 4 } else { 9 };
    let first = crate::points::between(0, half);
    let second = Interval::new(0, 9);
    if !has(alloc, &state, first, second, 9)? || !has(alloc, &copy, first, second, 9)? {
        return Ok(false);
    }
    if !second_alone_agrees(alloc, &state)? {
        return Ok(false);
    }
    let below = two_form(alloc, FIRST, SECOND, 1)?;
    state.keep(&below, Relation::AtMost);
    let difference = two_form(alloc, SECOND, MINUS_FIRST, 0)?;
    Ok(state.is_empty() && state.range(0).is_none() && state.form(&difference).is_none())
}

// the second variable alone
fn second_alone_agrees<D: Domain>(alloc: Global, state: &D) -> Result<bool, NoMemory>
    requires { count_of (D.shape_of state.now) ≡ 2 }
{
    let alone = grouped(alloc, 1, 0)?;
    let picks = [Some(1)];
    let projected = state.project(alloc, &alone, &picks, &[])?;
    Ok(projected.range(0) == Some(Interval::new(0, 9)))
}

/// A write of 5 to 6 to cells of 0: an array of 40 cells keeps 0, one of a single cell does not.
pub(crate) fn writes_agree<D: Domain>(alloc: Global) -> Result<bool, NoMemory> {
    let shape = grouped(alloc, 1, 2)?;
    let mut state: D = D::full(alloc, &shape)?;
    let zero = Summary::Range(Interval::new(0, 0));
    let written = Interval::new(5, 6);
    state.set_array(0, zero);
    state.set_array(1, zero);
    state.write(0, written, 40);
    state.write(1, written, 1);
    let long = Some(Summary::Range(Interval::new(0, 6)));
    let single = Some(Summary::Range(written));
    Ok(state.array(0) == long && state.array(1) == single)
}
