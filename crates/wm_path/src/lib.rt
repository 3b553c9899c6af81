//! The path of greatest weight through a frame: which edges it takes, and the paths through the loops on it.
#![tactic(auto)]

mod bodies;
mod choice;
mod field;
mod picking;
mod worst;

pub use choice::{Body, Choice};
pub use worst::worst_path;
