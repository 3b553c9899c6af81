//! Expressions, drawn: their nodes and edges, and the values that they leave.
#![tactic(auto)]

mod trees;

pub use trees::{expression, link, operator_values};
