//! Laws on the shapes of the nodes of a graph.
#![tactic(auto)]

pub mod laws;
