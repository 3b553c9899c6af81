//! Tests: the points of a state at which a form lies between two numbers.
#![tactic(auto)]

mod forms;
mod tests;

pub use forms::{of_variable, with_constant};
pub use tests::{keep_at_least, keep_at_most, keep_between};
