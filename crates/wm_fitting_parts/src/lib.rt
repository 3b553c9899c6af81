//! What a faultless reading of the parts of statements and declarations gives fits the program.
#![tactic(auto)]

mod laws;

pub use laws::part_laws;
