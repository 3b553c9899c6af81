//! The statements of a function's body, drawn.
#![tactic(auto)]

mod leading;
mod statements;

pub use statements::body;
