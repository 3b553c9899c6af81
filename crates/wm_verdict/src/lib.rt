//! The verdict of each site of a program by the states of the nodes of its graph.
#![tactic(auto)]

mod edges;
mod found;
mod judge;
mod single;

pub use found::Found;
pub use judge::Judge;
pub use single::verdict;
pub use wm_findings::{Findings, Turns, Verdict};
