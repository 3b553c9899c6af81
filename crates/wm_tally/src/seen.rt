// What one instance of a site shows.
use wm_interval::Interval;

/// Operands for which a site fails. In the places behind the operands stands 0.
#[derive(Clone, Copy)]
pub struct Failure {
    /// How many operands there are, at most 3.
    pub operands: u32,
    /// The box of each operand.
    pub boxes: [Interval; 3],
    /// The first values in the boxes, in lexicographic order, for which the site fails.
    pub values: [i64; 3],
}

/// What one edge of a site shows by the state before it.
#[derive(Clone, Copy)]
pub enum Seen {
    /// No run comes here, or the edge is no trial of the site.
    Away,
    /// It does not fail here.
    Fine,
    /// It may fail here.
    Failing(Failure),
    /// A cell is read here of an array none of whose cells is set.
    Unset,
}
