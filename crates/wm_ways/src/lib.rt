//! Paths through a graph with weights on its edges and with loops: the greatest weight of a path.
#![tactic(auto)]

pub mod laws;
pub mod loops;
pub mod numbers;
pub mod sweep;
mod ways;
pub mod whole;

pub use ways::{Turning, Way};
pub use whole::greatest_weight;
