//! What a frame counts at most, for each frame function.
#![tactic(auto)]

mod bounds;
mod parts;

pub use bounds::bounds_of;
pub use parts::{Part, lives_in, parts_of};
