//! The least state whose bounds are numbers of a grid and that holds a given state.
#![tactic(auto)]

mod ends;
mod forms;
mod known;
mod lines;
mod rounding;

pub use rounding::rounded;
