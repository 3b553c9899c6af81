//! Laws: how the statements of a graph stand together of their parts, with the numbers of nodes that a ruler tells before.
#![tactic(auto)]

pub mod laws;
