// Points one by one: each number of a range, and each cell that a summary allows.

use crate::points::Point;
use std::alloc::{AllocError, Global};
use wm_arrays::Summary;
use wm_domain::Shape;
use wm_interval::Interval;

/// How many numbers the range has besides its first one: these ranges are short.
fn width(range: Interval) -> u32 {
    (range.high.wrapping_sub(range.low) & 255) as u32
}

/// Pushes the point with each number of the range at variable `v`.
pub(crate) fn push_each(
    all: &mut Vec<Point>,
    point: &Point,
    v: u32,
    range: Interval,
) -> Result<(), AllocError> {
    for k in 0..width(range) {
        all.push(point.with(v, range.low.wrapping_add(i64::from(k))))?;
    }
    all.push(point.with(v, range.high))?;
    Ok(())
}

/// Each of the points, with each number of the range at variable `v`.
pub(crate) fn spread(
    alloc: Global,
    points: &[Point],
    v: u32,
    range: Interval,
) -> Result<Vec<Point>, AllocError> {
    let mut all = Vec::new(alloc);
    for point in points {
        push_each(&mut all, point, v, range)?;
    }
    Ok(all)
}

/// Pushes the point with each number of the range in the cell of array `a`.
pub(crate) fn push_cells(
    all: &mut Vec<Point>,
    point: &Point,
    a: u32,
    range: Interval,
) -> Result<(), AllocError> {
    for k in 0..width(range) {
        all.push(point.with_cell(a, Some(range.low.wrapping_add(i64::from(k)))))?;
    }
    all.push(point.with_cell(a, Some(range.high)))?;
    Ok(())
}

// pushes the point with each cell that the summary allows at array `a`
fn push_allowed(
    all: &mut Vec<Point>,
    point: &Point,
    a: u32,
    summary: Summary,
) -> Result<(), AllocError> {
    all.push(point.with_cell(a, None))?;
    match summary {
        Summary::Empty => Ok(()),
        Summary::Range(range) => push_cells(all, point, a, range),
    }
}

/// Each of the points, with each cell that the summary allows at array `a`.
pub(crate) fn spread_cells(
    alloc: Global,
    points: &[Point],
    a: u32,
    summary: Summary,
) -> Result<Vec<Point>, AllocError> {
    let mut all = Vec::new(alloc);
    for point in points {
        push_allowed(&mut all, point, a, summary)?;
    }
    Ok(all)
}

/// The points of the shape: each number of the full ranges; no cell is set.
pub(crate) fn unset_points(alloc: Global, shape: &Shape) -> Result<Vec<Point>, AllocError> {
    let mut points = vec![in alloc; Point::zero(); 1]?;
    let mut v: u32 = 0;
    for range in shape.group.items() {
        points = spread(alloc, points.as_slice(), v, *range)?;
        v = v.wrapping_add(1);
    }
    for range in shape.singles.items() {
        points = spread(alloc, points.as_slice(), v, *range)?;
        v = v.wrapping_add(1);
    }
    Ok(points)
}

/// The points of the shape, with each cell of its full range too.
pub(crate) fn all_points(alloc: Global, shape: &Shape) -> Result<Vec<Point>, AllocError> {
    let mut points = unset_points(alloc, shape)?;
    let mut a: u32 = 0;
    for range in shape.arrays.items() {
        points = spread_cells(alloc, points.as_slice(), a, Summary::Range(*range))?;
        a = a.wrapping_add(1);
    }
    Ok(points)
}
