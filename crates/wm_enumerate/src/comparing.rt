//! What an octagon tells, beside what enumerated points tell.

ghost use Rattle.std.specs.Prelude.{◌≡◌, ◌<◌, ◌≤◌, ◌*◌, ◌/◌, IsTrue, pos, negsuc};
ghost use Rattle.wm_enumerate.specs.Drawn.{IsLowAt};

use crate::points::{Point, greatest_sum, grid, range_over, spread};
use std::alloc::Global;
use wm_interval::Interval;
use wm_octagon::{Octagon, Side};
use wm_ops::NoMemory;

/// Whether the octagon is the least one of the points: it is empty where there is none, and its ranges and bounds are the
/// least and greatest values and sums over them.
pub(crate) fn agrees(octagon: &Octagon, variables: usize, points: &[Point]) -> bool
    requires few { variables ≤ 4 }
    requires like { octagon.now.variables ≡ variables }
{
    if octagon.is_empty() != points.is_empty() {
        return false;
    }
    for v in 0..variables {
        if octagon.range(v) != range_over(points, v) {
            return false;
        }
    }
    for v in 0..variables {
        if !sums_agree(octagon, v, points) {
            return false;
        }
    }
    true
}

// Whether the sums of variable `v` and those before it agree.
fn sums_agree(octagon: &Octagon, v: usize, points: &[Point]) -> bool
    requires inside { v < octagon.now.variables }
    requires few { octagon.now.variables ≤ 4 }
{
    for w in 0..v {
        for signs in 0..4 {
            let (a, b) = two_sides(v, w, signs);
            if octagon.bound(a, b) != greatest_sum(points, a, b) {
                return false;
            }
        }
    }
    true
}

// Two sides of these variables; the remainders of the number tell their signs.
fn two_sides(v: usize, w: usize, signs: u32) -> (Side, Side)
    ensures first { result.0.variable ≡ v }
    ensures second { result.1.variable ≡ w }
{
    let a = Side {
        variable: v,
        negative: signs % 2 == 1,
    };
    let b = Side {
        variable: w,
        negative: signs / 2 == 1,
    };
    (a, b)
}

/// The points that meet all ranges and bounds of the octagon.
pub(crate) fn points_of(
    alloc: Global,
    octagon: &Octagon,
    variables: usize,
) -> Result<Vec<Point>, NoMemory>
    requires few { variables ≤ 4 }
    requires like { octagon.now.variables ≡ variables }
{
    let mut points = grid(alloc, &[])?;
    for v in 0..variables {
        match octagon.range(v) {
            None => return Ok(Vec::new(alloc)),
            Some(range) => {
                points = spread(alloc, points.as_slice(), v, range)?;
            }
        }
    }
    let mut inside = Vec::new(alloc);
    for point in points.as_slice() {
        if holds(octagon, variables, *point) {
            inside.push(*point)?;
        }
    }
    Ok(inside)
}

/// Whether the point meets all ranges and bounds of the octagon.
pub(crate) fn holds(octagon: &Octagon, variables: usize, point: Point) -> bool
    requires few { variables ≤ 4 }
    requires like { octagon.now.variables ≡ variables }
{
    for v in 0..variables {
        match octagon.range(v) {
            None => return false,
            Some(range) => {
                if point.at(v) < range.low || range.high < point.at(v) {
                    return false;
                }
            }
        }
        if !sums_hold(octagon, v, point) {
            return false;
        }
    }
    true
}

// Whether the point meets the bounds of variable `v` and those before it.
fn sums_hold(octagon: &Octagon, v: usize, point: Point) -> bool
    requires inside { v < octagon.now.variables }
    requires few { octagon.now.variables ≤ 4 }
{
    for w in 0..v {
        for signs in 0..4 {
            let (a, b) = two_sides(v, w, signs);
            match octagon.bound(a, b) {
                None => return false,
                Some(most) => {
                    if most < point.sum(a, b) {
                        return false;
                    }
                }
            }
        }
    }
    true
}

/// Whether all points have small values of variable `v`.
pub(crate) fn is_low(octagon: &Octagon, v: usize) -> bool
    requires { v < octagon.now.variables }
    ensures { IsTrue result → IsLowAt octagon.now v }
{
    match octagon.range(v) {
        None => true,
        Some(range) => range.within(Interval::new(-1000, 1000)),
    }
}
