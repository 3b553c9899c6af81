//! What is known of the cells of an array: nothing is set, or each set cell lies in an interval. No call takes memory.
#![tactic(auto)]

mod state_line;
mod summary;

pub use state_line::StateLine;
pub use summary::Summary;
