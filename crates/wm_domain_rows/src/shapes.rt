// The variables and arrays of a small shape.

ghost use Rattle.std.specs.Prelude.{◌≡◌, ◌≤◌, length};
ghost use Rattle.wm_domain.specs.States.{count_of, array_count};
ghost use Rattle.wm_domain_rows.specs.Drawn.{IsSmall};

use crate::points::{Point, cell_lies, lies};
use wm_domain::Shape;
use wm_interval::Interval;

/// How many variables the shape has.
#[tactic(auto, using(crate::proofs::Sizes::append_length))]
pub(crate) fn count(shape: &Shape) -> u32
    requires { IsSmall shape.now }
    ensures { result ≡ count_of shape.now }
{
    let group = shape.group.items().len();
    let singles = shape.singles.items().len();
    (group + singles) as u32
}

/// How many arrays the shape has.
pub(crate) fn arrays(shape: &Shape) -> u32
    requires { IsSmall shape.now }
    ensures { result ≡ array_count shape.now }
{
    shape.arrays.items().len() as u32
}

// the range at a place of the list
fn range_in(ranges: &[Interval], k: usize) -> Interval {
    match ranges.get(k) {
        None => Interval::new(0, 0),
        Some(range) => *range,
    }
}

/// The full range of variable `v`.
pub(crate) fn full_range(shape: &Shape, v: u32) -> Interval {
    let group = shape.group.items();
    let k = v as usize;
    if k < group.len() {
        return range_in(group, k);
    }
    range_in(shape.singles.items(), k - group.len())
}

/// The full range of the cells of array `a`.
pub(crate) fn full_array(shape: &Shape, a: u32) -> Interval {
    range_in(shape.arrays.items(), a as usize)
}

/// Whether the point lies in the full ranges.
pub(crate) fn is_inside(shape: &Shape, point: &Point) -> bool
    requires { IsSmall shape.now }
{
    for v in 0..count(shape) {
        if !lies(full_range(shape, v), point.at(v)) {
            return false;
        }
    }
    for a in 0..arrays(shape) {
        if !cell_lies(full_array(shape, a), point.cell(a)) {
            return false;
        }
    }
    true
}
