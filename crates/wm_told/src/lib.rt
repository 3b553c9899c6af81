//! All that a state tells, as plain data: the attained ends of each variable, of the difference and the sum of each pair of
//! the group, and of each array.
#![tactic(auto)]

mod cells;
mod counts;
mod pairs;
mod ranges;
mod whole;

pub use whole::tell;
