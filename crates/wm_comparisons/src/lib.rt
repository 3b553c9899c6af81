//! What a condition compares, and the two ways out of a comparison whose sides stand.
#![tactic(auto)]

mod marks;
mod questions;
mod standing;
mod subtractions;

pub use questions::{Compared, compare, compare_number, mark_of};
pub use standing::sides;
