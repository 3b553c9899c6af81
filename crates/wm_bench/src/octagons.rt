//! The octagons that are timed: some variables of 16 bits, and drawn bounds on sums of two of their sides.

ghost use Rattle.std.specs.Prelude.{◌≡◌, ◌≢◌, ◌<◌, ◌≤◌, IfOk, All, length};
ghost use Rattle.wm_octagon.specs.Ranges.{IsNarrow};
ghost use Rattle.wm_bench.specs.Octagons.{IsOf};

use crate::draws::Draws;
use std::alloc::Global;
use wm_interval::Interval;
use wm_octagon::{Octagon, Side};
use wm_ops::NoMemory;

/// How many bounds are drawn.
pub(crate) const BOUNDS: u32 = 200;

/// The sum of the sides `a` and `b` is at most `most`.
#[derive(Clone, Copy)]
pub(crate) struct Bound {
    a: Side,
    b: Side,
    most: i64,
}

/// Drawn bounds, and two octagons that have every second of them each.
#[derive(Drop)]
pub(crate) struct Drawn {
    ranges: Vec<Interval>,
    bounds: Vec<Bound>,
    even: Octagon,
    odd: Octagon,
    ghost few: { length ranges.items ≤ 32 },
    ghost narrow: { All IsNarrow ranges.items },
    ghost inside: { All (IsOf (length ranges.items)) bounds.items },
    ghost even_like: { even.variables ≡ length ranges.items },
    ghost odd_like: { odd.variables ≡ length ranges.items },
}

impl Drawn {
    /// Draws for this many variables, from the beginning of the draws.
    pub(crate) fn new(alloc: Global, variables: usize) -> Result<Drawn, NoMemory>
        requires many { 1 < variables }
        requires few { variables ≤ 32 }
    {
        let ranges = vec![in alloc; Interval::new(-32768, 32767); variables]?;
        let bounds = bounds_of(alloc, variables)?;
        let mut even = Octagon::new(alloc, ranges.as_slice())?;
        let mut odd = Octagon::new(alloc, ranges.as_slice())?;
        let mut turn = true;
        for bound in bounds.as_slice() {
            if turn {
                even.add_bound(bound.a, bound.b, bound.most);
            } else {
                odd.add_bound(bound.a, bound.b, bound.most);
            }
            turn = !turn;
        }
        Ok(Drawn {
            ranges,
            bounds,
            even,
            odd,
        })
    }

    /// Adds all bounds to a new octagon.
    pub(crate) fn add_bounds(&self, alloc: Global) -> Result<i64, NoMemory> {
        let mut octagon = Octagon::new(alloc, self.ranges.as_slice())?;
        for bound in self.bounds.as_slice() {
            octagon.add_bound(bound.a, bound.b, bound.most);
        }
        Ok(self.first_bound(&octagon))
    }

    /// Joins a copy of one octagon with the other.
    pub(crate) fn copy_and_join(&self, alloc: Global) -> Result<i64, NoMemory> {
        let mut octagon = self.even.copy(alloc)?;
        octagon.join_with(&self.odd);
        Ok(self.first_bound(&octagon))
    }

    /// Whether an octagon lies within itself: 1 or 0.
    pub(crate) fn within_itself(&self) -> i64 {
        i64::from(self.even.within(&self.even))
    }

    // the greatest value that the octagon leaves the sum of the first bound
    fn first_bound(&self, octagon: &Octagon) -> i64
        requires { octagon.now.variables ≡ length self.now.ranges.items }
    {
        match self.bounds.as_slice().first() {
            Some(bound) => octagon.bound(bound.a, bound.b).unwrap_or(0),
            None => 0,
        }
    }
}

// bounds on two different variables of so many
fn bounds_of(alloc: Global, variables: usize) -> Result<Vec<Bound>, NoMemory>
    requires many { 1 < variables }
    requires few { variables ≤ 32 }
    ensures { IfOk result (λ bounds. All (IsOf variables) bounds.items) }
{
    let mut draws = Draws::new();
    let mut all = Vec::new(alloc);
    for _ in 0..BOUNDS {
        all.push(Bound::next(&mut draws, variables))?;
    }
    Ok(all)
}

impl Bound {
    fn next(draws: &mut Draws, variables: usize) -> Bound
        requires many { 1 < variables }
        requires few { variables ≤ 32 }
        ensures inside { IsOf variables result }
    {
        let first = draws.below(variables as u64) as usize;
        let on = first + 1 + draws.below(variables as u64 - 1) as usize;
        let second = if on < variables { on } else { on - variables };
        let a = side(draws, first);
        let b = side(draws, second);
        Bound {
            a,
            b,
            most: 20000 + draws.below(40001) as i64,
        }
    }
}

// a side of the variable, the negative one where the draw is even
fn side(draws: &mut Draws, variable: usize) -> Side
    ensures variable { result.variable ≡ variable }
{
    let negative = draws.below(2) == 0;
    Side { variable, negative }
}
