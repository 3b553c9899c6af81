//! The inputs of a frame get numbers of their ranges.
#![tactic(auto)]

mod inputs;

pub use inputs::supplied;
