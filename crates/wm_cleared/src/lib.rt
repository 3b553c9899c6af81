//! Nodes at which some variables begin anew: with any numbers, or with 0.
#![tactic(auto)]

mod counters;
mod moved;

pub use counters::reset;
pub use moved::cleared;
