//! The grid of a program: the numbers at which the finder looks for bounds.
#![tactic(auto)]

mod beside;
mod given;
mod grid;
mod nearest;
mod steps;

pub use grid::Grid;
