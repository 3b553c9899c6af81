//! Octagons of variables of 32 bits, each of whose calls leaves exactly the points that are wanted.
#![tactic(auto)]

mod ties;

pub use ties::Ties;
