//! The images of states along all edges of a graph.
#![tactic(auto)]

mod acting;
mod calls;
mod cells;
mod computing;
mod moves;
mod numbers;
mod steps;

pub use steps::Steps;
