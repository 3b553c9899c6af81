//! Laws on the heads of a graph: in a well-formed program each is begun once.
#![tactic(auto)]

pub mod laws;
