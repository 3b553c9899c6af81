//! What a faultless reading of assignments, steps and calls gives fits the program.
#![tactic(auto)]

mod laws;

pub use laws::act_laws;
