//! What an expression calls, which decides whether the values before it wait in temporaries.
#![tactic(auto)]

mod ahead;
mod functions;
mod operators;

pub use ahead::{coming, own_operator};
