//! Sums, differences and products of two forms in 32 bits, as far as states tell their numbers.
#![tactic(auto)]

mod plain;

pub use plain::{difference, kept, operand, product, sum};
