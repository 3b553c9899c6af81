//! Laws on the graph of a program: the order of its edges, and its heads.
#![tactic(auto)]

pub mod laws;
