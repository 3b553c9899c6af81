//! What a faultless reading of statements gives fits the program.
#![tactic(auto)]

mod laws;

pub use laws::statement_laws;
