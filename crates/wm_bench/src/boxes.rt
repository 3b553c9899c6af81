//! The boxes on which an operator is timed: a third of them full, a third around 0, a third anywhere.

ghost use Rattle.std.specs.Prelude.{pos, negsuc, nat_lt, if◌then◌else◌, ℤ, ◌≤ℤ◌, ◌<◌, ◌^◌};
ghost use Rattle.wm_interval.specs.Holds.{Holds, SizesAtMost};
ghost use Rattle.wm_ops.specs.Arguments.{FitsAt, HasWidth};
ghost use Rattle.wm_ops.specs.Operators.{arity_of};
ghost use Rattle.wm_hull.specs.Boxes.{BoxesFit, used_box, zero_box};
ghost use Rattle.wm_bench.specs.Fits.{fits};

use crate::draws::Draws;
use std::alloc::{AllocError, Global};
use wm_interval::Interval;
use wm_ops::{Op, Width, arg_width, arity};

/// How many boxes are drawn for an operator.
pub(crate) const BOXES: u32 = 1000;

/// An operator and boxes of its arguments.
#[derive(Clone, Copy)]
pub(crate) struct Drawn {
    pub(crate) op: Op,
    pub(crate) boxes: [Interval; 3],
    ghost fit: { BoxesFit op (used_box op boxes 0) (used_box op boxes 1) (used_box op boxes 2) } by { Prim.hlevel fits },
}

impl Drawn {
    // The boxes that come at this place of the operator's, counted from 0.
    fn next(draws: &mut Draws, op: Op, place: u32) -> Drawn {
        let first = argument(draws, op, 0, place);
        let second = argument(draws, op, 1, place);
        let third = argument(draws, op, 2, place);
        Drawn {
            op,
            boxes: [first, second, third],
        }
    }
}

/// The boxes of the operator, from the beginning of the draws.
pub(crate) fn boxes_of(alloc: Global, op: Op) -> Result<Vec<Drawn>, AllocError> {
    let mut draws = Draws::new();
    let mut all = Vec::new(alloc);
    for place in 0..BOXES {
        all.push(Drawn::next(&mut draws, op, place))?;
    }
    Ok(all)
}

// The box of argument `k`; past the arity, where nothing is drawn, it holds 0 alone.
fn argument(draws: &mut Draws, op: Op, k: usize, place: u32) -> Interval
    ensures low { FitsAt op k (if nat_lt k (arity_of op) then result else zero_box).low }
    ensures high { FitsAt op k (if nat_lt k (arity_of op) then result else zero_box).high }
{
    if k >= arity(op) {
        return Interval::new(0, 0);
    }
    box_for(draws, arg_width(op, k), place)
}

// The box that is drawn at this place for an argument of this type.
fn box_for(draws: &mut Draws, width: Width, place: u32) -> Interval
    ensures low { HasWidth width result.low }
    ensures high { HasWidth width result.high }
{
    let full = full(width);
    match place % 3 {
        0 => full,
        1 => around_zero(draws, full),
        _ => anywhere(draws, full),
    }
}

fn full(width: Width) -> Interval
    ensures fits { (z : ℤ) → Holds result z → HasWidth width z }
    ensures sized { SizesAtMost (2 ^ 31) result }
    ensures below { result.low ≤ℤ negsuc 39 }
    ensures above { pos 40 ≤ℤ result.high }
{
    match width {
        Width::W16 => Interval::new(-32768, 32767),
        Width::W32 => Interval::new(-2147483648, 2147483647),
    }
}

// A box inside `full` that holds 0, with ends up to 40 in size.
fn around_zero(draws: &mut Draws, full: Interval) -> Interval
    requires below { full.low ≤ℤ negsuc 39 }
    requires above { pos 40 ≤ℤ full.high }
    ensures low { Holds full result.low }
    ensures high { Holds full result.high }
{
    let low = draws.between(Interval::new(-40, 0));
    let high = draws.between(Interval::new(0, 40));
    Interval::new(low, high)
}

// A box inside `full`.
fn anywhere(draws: &mut Draws, full: Interval) -> Interval
    requires { SizesAtMost (2 ^ 31) full }
    ensures low { Holds full result.low }
    ensures high { Holds full result.high }
{
    let one = draws.between(full);
    let other = draws.between(full);
    if one < other {
        Interval::new(one, other)
    } else {
        Interval::new(other, one)
    }
}
