//! Boxes: abstract states that relate no variable to another. Each variable has a range and each array a summary.
#![tactic(auto)]

mod boxes;

pub use boxes::Boxes;
