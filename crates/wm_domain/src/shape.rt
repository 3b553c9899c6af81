// The shape of a state: which variables and arrays it has, and what they can hold.
use wm_interval::Interval;
use wm_ops::List;

/// The full ranges of the variables and of the cells of the arrays, all in 32 bits. Variables are numbered from 0,
/// through the group and then the singles.
#[derive(Debug, Drop)]
pub struct Shape {
    /// The variables that may be related to each other, at most 32.
    pub group: List<Interval>,
    /// The other variables.
    pub singles: List<Interval>,
    /// The arrays: the full range of the cells of each.
    pub arrays: List<Interval>,
}
