//! What has been drawn of a graph: its nodes with their shapes, its edges, its heads.
#![tactic(auto)]

mod known;
mod sketch;

pub use known::Known;
pub use sketch::Sketch;
