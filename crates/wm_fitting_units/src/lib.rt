//! What a faultless reading of a unit gives fits the program.
#![tactic(auto)]

mod laws;

pub use laws::unit_laws;
