//! The boxes of the arguments of an operator: the ranges of their forms, cut to the types of the arguments.
#![tactic(auto)]

mod arguments;

pub use arguments::{argument_box, boxes};
