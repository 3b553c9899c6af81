//! The first bound of a state at a head that another state passes.
#![tactic(auto)]

mod lines;
mod order;
mod passed;

pub use order::{compared, first_passed};
pub use passed::Passed;
