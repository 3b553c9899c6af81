// The numbers of a grid around a range.
ghost use Rattle.std.specs.Prelude.{◌≡◌, MatchOption};
ghost use Rattle.wm_arrays.specs.declared.summary.Summary.TheVariants.{Range};
ghost use Rattle.wm_rounding.specs.Bounding.{AreAround, IsAround};

use wm_arrays::Summary;
use wm_grid::Grid;
use wm_interval::Interval;

/// The nearest numbers of a grid that lie below and above a range; none where the grid has none on that side.
#[derive(Clone, Copy)]
pub(crate) struct Bounds {
    pub low: Option<i64>,
    pub high: Option<i64>,
}

pub(crate) fn around(grid: &Grid, range: Interval) -> Bounds
    ensures { AreAround grid.now range result }
{
    Bounds {
        low: grid.down(range.low),
        high: grid.up(range.high),
    }
}

/// The same of a range, as a summary.
fn range_around(grid: &Grid, range: Interval) -> Option<Summary>
    ensures { MatchOption result (Unit {0}) (λ s. IsAround grid.now (Range range) s) }
{
    match grid.down(range.low) {
        None => None,
        Some(low) => match grid.up(range.high) {
            None => None,
            Some(high) => Some(Summary::Range(Interval::new(low, high))),
        },
    }
}

/// The least summary of the grid that allows what another does; none where the grid has no number on one side of it.
pub(crate) fn summary_around(grid: &Grid, held: Summary) -> Option<Summary>
    ensures { MatchOption result (Unit {0}) (λ s. IsAround grid.now held s) }
{
    match held {
        Summary::Empty => Some(Summary::Empty),
        Summary::Range(range) => range_around(grid, range),
    }
}
