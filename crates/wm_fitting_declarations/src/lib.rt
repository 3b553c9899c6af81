//! What a faultless reading of a declaration gives fits the program.
#![tactic(auto)]

mod laws;

pub use laws::declaration_laws;
