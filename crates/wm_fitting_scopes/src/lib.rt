//! The names of a scope fit the program, from one declaration to the next.
#![tactic(auto)]

mod laws;

pub use laws::scope_laws;
