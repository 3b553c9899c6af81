//! What a faultless reading of expressions gives fits the program.
#![tactic(auto)]

mod laws;

pub use laws::value_laws;
