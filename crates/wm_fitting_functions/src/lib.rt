//! What a faultless reading of a function gives fits the program.
#![tactic(auto)]

mod laws;

pub use laws::function_laws;
