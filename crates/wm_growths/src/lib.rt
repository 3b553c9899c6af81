//! What the assignments that step a scalar of a loop's body can add to it.
#![tactic(auto)]

mod growing;
mod steps;

pub use growing::growth;
pub use steps::{Step, steps_of};
