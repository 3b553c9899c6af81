//! A variable of the next node gets a value that is told by the state before.
#![tactic(auto)]

mod numbers;
mod values;

pub use numbers::{any, bare, exact, near};
pub use values::{Value, set};
