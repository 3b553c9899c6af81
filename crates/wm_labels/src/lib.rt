//! The label of each node of a graph: a state that holds what its incoming edges allow, from a state for each head.
#![tactic(auto)]

mod label;

pub use label::{note, nowhere, reached};
