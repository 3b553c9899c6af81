// Points of up to four variables and two arrays, and what the points of a list tell.

ghost use Rattle.std.specs.Prelude.{◌≤ℤ◌};

use wm_arrays::Summary;
use wm_domain::{Form, Relation, Term};
use wm_interval::Interval;

/// The numbers of the variables, and a cell of each array; those past the last are 0 and unset.
#[derive(Clone, Copy, PartialEq, Eq)]
pub(crate) struct Point {
    values: [i64; 4],
    cells: [Option<i64>; 2],
}

impl Point {
    pub(crate) fn zero() -> Point {
        Point {
            values: [0; 4],
            cells: [None; 2],
        }
    }

    /// The number of variable `v`.
    pub(crate) fn at(&self, v: u32) -> i64 {
        match self.values.get(v as usize) {
            None => 0,
            Some(z) => *z,
        }
    }

    /// The cell of array `a`.
    pub(crate) fn cell(&self, a: u32) -> Option<i64> {
        match self.cells.get(a as usize) {
            None => None,
            Some(cell) => *cell,
        }
    }

    /// The point with another number of variable `v`.
    pub(crate) fn with(&self, v: u32, value: i64) -> Point {
        let mut values = self.values;
        if v < 4 {
            values[v as usize] = value;
        }
        Point {
            values,
            cells: self.cells,
        }
    }

    /// The point with another cell of array `a`.
    pub(crate) fn with_cell(&self, a: u32, cell: Option<i64>) -> Point {
        let mut cells = self.cells;
        if a < 2 {
            cells[a as usize] = cell;
        }
        Point {
            values: self.values,
            cells,
        }
    }

    /// The value of the term.
    pub(crate) fn term(&self, t: Term) -> i64 {
        if t.negative {
            return self.at(t.variable).wrapping_neg();
        }
        self.at(t.variable)
    }

    /// The value of the form.
    pub(crate) fn form(&self, f: &Form) -> i64 {
        let mut sum = f.constant;
        for t in f.terms.items() {
            sum = sum.wrapping_add(self.term(*t));
        }
        sum
    }
}

/// The interval of two numbers in order, and else of the first alone.
pub(crate) fn between(low: i64, high: i64) -> Interval {
    if low <= high {
        return Interval::new(low, high);
    }
    Interval::new(low, low)
}

/// Whether the number lies in the range.
pub(crate) fn lies(range: Interval, z: i64) -> bool {
    range.low <= z && z <= range.high
}

/// Whether a set cell lies in the range.
pub(crate) fn cell_lies(range: Interval, cell: Option<i64>) -> bool {
    match cell {
        None => true,
        Some(z) => lies(range, z),
    }
}

/// Whether a cell is one that the summary allows.
pub(crate) fn allows(summary: Summary, cell: Option<i64>) -> bool {
    match cell {
        None => true,
        Some(z) => match summary {
            Summary::Empty => false,
            Summary::Range(range) => lies(range, z),
        },
    }
}

// the range, or the number alone, with the number
fn with_number(range: Option<Interval>, z: i64) -> Option<Interval> {
    let number = Interval::new(z, z);
    match range {
        None => Some(number),
        Some(so_far) => Some(so_far.join(number)),
    }
}

/// The least and the greatest value of the form over the points.
pub(crate) fn form_over(points: &[Point], f: &Form) -> Option<Interval> {
    let mut range: Option<Interval> = None;
    for point in points {
        range = with_number(range, point.form(f));
    }
    range
}

/// The least and the greatest number of variable `v` over the points.
pub(crate) fn range_over(points: &[Point], v: u32) -> Option<Interval> {
    let mut range: Option<Interval> = None;
    for point in points {
        range = with_number(range, point.at(v));
    }
    range
}

/// What the set cells of array `a` hold over the points.
pub(crate) fn cells_over(points: &[Point], a: u32) -> Summary {
    let mut range: Option<Interval> = None;
    for point in points {
        if let Some(z) = point.cell(a) {
            range = with_number(range, z);
        }
    }
    match range {
        None => Summary::Empty,
        Some(held) => Summary::Range(held),
    }
}

/// Whether a value of a form, one of these, is so to 0. `NotEqual` is asked only where 0 is at an end of the values, or past it.
pub(crate) fn meets(values: Option<Interval>, r: Relation, value: i64) -> bool {
    match r {
        Relation::AtMost => value <= 0,
        Relation::Equal => value == 0,
        Relation::NotEqual => match values {
            None => true,
            Some(range) => value != 0 || (range.low < 0 && 0 < range.high),
        },
    }
}
