//! A drawn octagon with its points, and each call on it beside the enumeration of what the call is to leave.

ghost use Rattle.std.specs.Prelude.{◌≡◌, ◌<◌, ◌≤◌, ◌*◌, ◌+◌, length, All, IfOk, IfSome};
ghost use Rattle.wm_octagon.specs.Ranges.{IsNarrow};

use crate::comparing::{agrees, holds, is_low, points_of};
use crate::draws::Draws;
use crate::points::{Point, grid, push_each, spread, width};
use std::alloc::Global;
use wm_interval::Interval;
use wm_octagon::Octagon;
use wm_ops::NoMemory;

/// An octagon and its points.
#[derive(Drop)]
pub(crate) struct Sample {
    variables: usize,
    octagon: Octagon,
    points: Vec<Point>,
    ghost some: { 0 < variables },
    ghost few: { variables ≤ 4 },
    ghost like: { octagon.variables ≡ variables },
}

impl Sample {
    /// Draws an octagon of some ranges and bounds, or the join of two such ones.
    pub(crate) fn new(
        alloc: Global,
        draws: &mut Draws,
        variables: usize,
    ) -> Result<Sample, NoMemory>
        requires some { 0 < variables }
        requires few { variables ≤ 4 }
        ensures like { IfOk result (λ s. s.variables ≡ variables) }
    {
        let mut octagon = draw_octagon(alloc, draws, variables)?;
        if draws.coin() {
            let other = draw_octagon(alloc, draws, variables)?;
            octagon.join_with(&other);
        }
        let points = points_of(alloc, &octagon, variables)?;
        Ok(Sample {
            variables,
            octagon,
            points,
        })
    }

    /// A bound that is added.
    pub(crate) fn bound_agrees(&self, alloc: Global, draws: &mut Draws) -> Result<bool, NoMemory> {
        let a = draws.side(self.variables);
        let b = draws.side(self.variables);
        let most = draws.number();
        let mut after = self.octagon.copy(alloc)?;
        after.add_bound(a, b, most);
        let mut expected = Vec::new(alloc);
        for point in self.points.as_slice() {
            if point.sum(a, b) <= most {
                expected.push(*point)?;
            }
        }
        Ok(agrees(&after, self.variables, expected.as_slice()))
    }

    /// A range that is added.
    pub(crate) fn range_agrees(&self, alloc: Global, draws: &mut Draws) -> Result<bool, NoMemory> {
        let v = draws.variable(self.variables);
        let range = draws.interval(6);
        let mut after = self.octagon.copy(alloc)?;
        after.add_range(v, range);
        let mut expected = Vec::new(alloc);
        for point in self.points.as_slice() {
            if range.low <= point.at(v) && point.at(v) <= range.high {
                expected.push(*point)?;
            }
        }
        Ok(agrees(&after, self.variables, expected.as_slice()))
    }

    /// A variable that is set free.
    pub(crate) fn forget_agrees(&self, alloc: Global, draws: &mut Draws) -> Result<bool, NoMemory> {
        let v = draws.variable(self.variables);
        let range = draws.interval(6);
        let mut after = self.octagon.copy(alloc)?;
        after.forget(v, range);
        let expected = spread(alloc, self.points.as_slice(), v, range)?;
        Ok(agrees(&after, self.variables, expected.as_slice()))
    }

    /// A variable that is shifted, or taken from a number.
    pub(crate) fn shift_agrees(&self, alloc: Global, draws: &mut Draws) -> Result<bool, NoMemory> {
        let v = draws.variable(self.variables);
        let negate = draws.coin();
        let more = draws.number();
        if !is_low(&self.octagon, v) {
            return Ok(false);
        }
        let mut after = self.octagon.copy(alloc)?;
        after.shift(v, negate, more);
        let mut expected = Vec::new(alloc);
        for point in self.points.as_slice() {
            let old = point.at(v);
            let value = if negate { old.wrapping_neg() } else { old };
            expected.push(point.with(v, value.wrapping_add(more)))?;
        }
        Ok(agrees(&after, self.variables, expected.as_slice()))
    }

    /// A variable that becomes another, or itself, and a number of an interval.
    pub(crate) fn difference_agrees(
        &self,
        alloc: Global,
        draws: &mut Draws,
    ) -> Result<bool, NoMemory> {
        let v = draws.variable(self.variables);
        let w = draws.variable(self.variables);
        let more = draws.interval(3);
        if !is_low(&self.octagon, w) {
            return Ok(false);
        }
        let mut after = self.octagon.copy(alloc)?;
        after.assign_difference(v, w, more);
        let mut expected = Vec::new(alloc);
        for point in self.points.as_slice() {
            let low = point.at(w).wrapping_add(more.low);
            push_each(&mut expected, *point, v, low, width(more))?;
        }
        Ok(agrees(&after, self.variables, expected.as_slice()))
    }

    /// A join with another.
    pub(crate) fn join_agrees(&self, alloc: Global, other: &Sample) -> Result<bool, NoMemory>
        requires { self.now.variables ≡ other.now.variables }
    {
        let mut after = self.octagon.copy(alloc)?;
        after.join_with(&other.octagon);
        let mut expected = Vec::new(alloc);
        for point in self.points.as_slice() {
            expected.push(*point)?;
        }
        for point in other.points.as_slice() {
            expected.push(*point)?;
        }
        Ok(agrees(&after, self.variables, expected.as_slice()))
    }

    /// Whether it lies within another.
    pub(crate) fn within_agrees(&self, other: &Sample) -> bool
        requires { self.now.variables ≡ other.now.variables }
    {
        let mut inside = true;
        for point in self.points.as_slice() {
            if !holds(&other.octagon, other.variables, *point) {
                inside = false;
            }
        }
        self.octagon.within(&other.octagon) == inside
    }

    /// A copy.
    pub(crate) fn copy_agrees(&self, alloc: Global) -> Result<bool, NoMemory> {
        let after = self.octagon.copy(alloc)?;
        Ok(agrees(&after, self.variables, self.points.as_slice()))
    }

    /// A projection.
    pub(crate) fn projection_agrees(
        &self,
        alloc: Global,
        draws: &mut Draws,
    ) -> Result<bool, NoMemory> {
        let keep = draw_picks(alloc, draws, self.variables)?;
        let ranges = draw_ranges(alloc, draws, keep.len(), 1)?;
        let after = self
            .octagon
            .project(alloc, keep.as_slice(), ranges.as_slice())?;
        let mut expected = Vec::new(alloc);
        for point in self.points.as_slice() {
            expected.push(picked(*point, keep.as_slice()))?;
        }
        for k in 0..keep.len() {
            if keep[k].is_none() {
                expected = spread(alloc, expected.as_slice(), k, ranges[k])?;
            }
        }
        Ok(agrees(&after, keep.len(), expected.as_slice()))
    }
}

/// Whether a new octagon of drawn ranges has just their points.
pub(crate) fn new_agrees(
    alloc: Global,
    draws: &mut Draws,
    variables: usize,
) -> Result<bool, NoMemory>
    requires { variables ≤ 4 }
{
    let ranges = draw_ranges(alloc, draws, variables, 6)?;
    let octagon = Octagon::new(alloc, ranges.as_slice())?;
    let expected = grid(alloc, ranges.as_slice())?;
    Ok(agrees(&octagon, variables, expected.as_slice()))
}

// an octagon of drawn ranges and up to 5 drawn bounds
fn draw_octagon(alloc: Global, draws: &mut Draws, variables: usize) -> Result<Octagon, NoMemory>
    requires some { 0 < variables }
    requires few { variables ≤ 4 }
    ensures like { IfOk result (λ o. o.variables ≡ variables) }
{
    let ranges = draw_ranges(alloc, draws, variables, 4)?;
    let mut octagon = Octagon::new(alloc, ranges.as_slice())?;
    for _ in 0..draws.below(6) {
        let a = draws.side(variables);
        let b = draws.side(variables);
        octagon.add_bound(a, b, draws.number());
    }
    Ok(octagon)
}

// so many drawn ranges
fn draw_ranges(
    alloc: Global,
    draws: &mut Draws,
    many: usize,
    most: u64,
) -> Result<Vec<Interval>, NoMemory>
    requires short { most ≤ 6 }
    ensures long { IfOk result (λ ranges. length ranges.items ≡ many) }
    ensures narrow { IfOk result (λ ranges. All IsNarrow ranges.items) }
{
    let mut ranges = Vec::new(alloc);
    for _ in 0..many {
        ranges.push(draws.interval(most))?;
    }
    Ok(ranges)
}

// up to four picks of different variables, some of them of none
fn draw_picks(
    alloc: Global,
    draws: &mut Draws,
    variables: usize,
) -> Result<Vec<Option<usize>>, NoMemory>
    requires some { 0 < variables }
    requires few { variables ≤ 4 }
    ensures long { IfOk result (λ keep. length keep.items ≤ 4) }
    ensures named { IfOk result (λ keep. All (λ p. IfSome p (λ v. v < variables)) keep.items) }
{
    let many = 1 + draws.below(4);
    let mut next = draws.variable(variables);
    let mut left = variables;
    let mut keep = Vec::new(alloc);
    for _ in 0..many {
        if left == 0 || draws.below(4) == 0 {
            keep.push(None)?;
        } else {
            keep.push(Some(next))?;
            left -= 1;
            next = if next + 1 == variables { 0 } else { next + 1 };
        }
    }
    Ok(keep)
}

// the values of the picked variables, in the order of the picks
fn picked(point: Point, keep: &[Option<usize>]) -> Point
    requires few { length keep.now ≤ 4 }
    requires named { All (λ p. IfSome p (λ v. v < 4)) keep.now }
{
    let mut values = Point::zero();
    for (k, pick) in keep.iter().enumerate() {
        if let Some(v) = *pick {
            values = values.with(k, point.at(v));
        }
    }
    values
}
