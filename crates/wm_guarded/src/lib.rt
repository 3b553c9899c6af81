//! Edges on which only some points go on: where a form stands so to 0, or lies between two numbers.
#![tactic(auto)]

mod guards;

pub use guards::{kept, tested};
