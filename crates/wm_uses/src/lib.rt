//! How long the state of each node of a graph is needed, and how many states are needed at once.
#![tactic(auto)]

mod last;
mod room;

pub use last::{call_of, last_uses};
pub use room::width;
