//! The instances of a program, one for each chain of call places, and what its limits look at.
#![tactic(auto)]

mod constants;
mod totals;
mod trees;

pub use constants::distinct_constants;
pub use totals::{exceeds_steps, heads, size};
pub use trees::{grow, root_instance};
