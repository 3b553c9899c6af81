//! Laws on the edges that are picked for a path of greatest weight, by which a reader can check their definition.
#![tactic(auto)]

pub mod laws;
