//! Integer points of up to four variables, one by one.

ghost use Rattle.std.specs.Prelude.{◌≡◌, ◌<◌, ◌≤◌, length};

use std::alloc::{AllocError, Global};
use wm_interval::Interval;
use wm_octagon::Side;

/// The greatest number of variables.
pub(crate) const MOST: usize = 4;

/// The values of the variables; those past the last are 0.
#[derive(Clone, Copy)]
pub(crate) struct Point {
    values: [i64; MOST],
}

impl Point {
    pub(crate) fn zero() -> Point {
        Point { values: [0; MOST] }
    }

    /// The value of variable `v`.
    pub(crate) fn at(self, v: usize) -> i64
        requires { v < 4 }
    {
        self.values[v]
    }

    /// The point with another value of variable `v`.
    pub(crate) fn with(self, v: usize, value: i64) -> Point
        requires { v < 4 }
    {
        let mut values = self.values;
        values[v] = value;
        Point { values }
    }

    fn signed(self, side: Side) -> i64
        requires { side.variable < 4 }
    {
        let value = self.values[side.variable];
        if side.negative {
            return value.wrapping_neg();
        }
        value
    }

    /// The sum of two sides.
    pub(crate) fn sum(self, a: Side, b: Side) -> i64
        requires first { a.variable < 4 }
        requires second { b.variable < 4 }
    {
        self.signed(a).wrapping_add(self.signed(b))
    }
}

/// The points that give each variable a number of its range.
pub(crate) fn grid(alloc: Global, ranges: &[Interval]) -> Result<Vec<Point>, AllocError>
    requires { length ranges.now ≤ 4 }
{
    let mut points = vec![in alloc; Point::zero(); 1]?;
    for (v, range) in ranges.iter().enumerate() {
        points = spread(alloc, points.as_slice(), v, *range)?;
    }
    Ok(points)
}

/// Each of the points, with each number of the range as its value of variable `v`.
pub(crate) fn spread(
    alloc: Global,
    points: &[Point],
    v: usize,
    range: Interval,
) -> Result<Vec<Point>, AllocError>
    requires { v < 4 }
{
    let mut all = Vec::new(alloc);
    for point in points {
        push_each(&mut all, *point, v, range.low, width(range))?;
    }
    Ok(all)
}

/// Pushes the point with each value of variable `v` from `low`, so many more than one.
pub(crate) fn push_each(
    all: &mut Vec<Point>,
    point: Point,
    v: usize,
    low: i64,
    more: u32,
) -> Result<(), AllocError>
    requires { v < 4 }
{
    for k in 0..more {
        all.push(point.with(v, low.wrapping_add(i64::from(k))))?;
    }
    all.push(point.with(v, low.wrapping_add(i64::from(more))))?;
    Ok(())
}

/// How many numbers the range has besides its first one: these ranges are short.
pub(crate) fn width(range: Interval) -> u32 {
    (range.high.wrapping_sub(range.low) & 255) as u32
}

/// The least and the greatest value of variable `v` over the points.
pub(crate) fn range_over(points: &[Point], v: usize) -> Option<Interval>
    requires { v < 4 }
{
    let mut range: Option<Interval> = None;
    for point in points {
        let number = point.at(v);
        let value = Interval::new(number, number);
        range = match range {
            None => Some(value),
            Some(so_far) => Some(so_far.join(value)),
        };
    }
    range
}

/// The greatest sum of two sides over the points.
pub(crate) fn greatest_sum(points: &[Point], a: Side, b: Side) -> Option<i64>
    requires first { a.variable < 4 }
    requires second { b.variable < 4 }
{
    let mut most: Option<i64> = None;
    for point in points {
        let sum = point.sum(a, b);
        most = match most {
            None => Some(sum),
            Some(so_far) => {
                if so_far < sum {
                    Some(sum)
                } else {
                    Some(so_far)
                }
            }
        };
    }
    most
}
