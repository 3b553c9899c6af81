//! What is well formed of the program that is made of a faultless reading.
#![tactic(auto)]

mod laws;

pub use laws::program_laws;
