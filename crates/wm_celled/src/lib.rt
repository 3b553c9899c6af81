//! Edges at which the cells of an array are read or change.
#![tactic(auto)]

mod edges;

pub use edges::{array_set, read, written};
