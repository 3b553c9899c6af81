//! Casts to 16 bits, as far as states tell their numbers.
#![tactic(auto)]

mod casts;

pub use casts::cast;
