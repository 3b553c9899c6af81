//! What the trees of a source say by themselves, before any name is looked up.
#![tactic(auto)]

mod constants;
mod endings;
mod firsts;
mod numbers;
mod steps;

pub use constants::{constant, width, wrap};
pub use endings::ends_in_return;
pub use firsts::{first, is_truth, name};
pub use numbers::body_numbers;
pub use steps::step;
