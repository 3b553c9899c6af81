//! Which operator an expression applies, where it is an operator, and whether it is the number 0.
#![tactic(auto)]

mod operators;
mod zero;

pub use operators::{Applied, operator_of};
pub use zero::is_nought;
