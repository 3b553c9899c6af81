//! What a frame counts at most: the greatest weight of a path through the graph from the frame head on.
#![tactic(auto)]

mod bound;
mod endless;
mod turnings;
mod weighing;

pub use bound::{frame_bound, with_mark};
pub use turnings::{source_at, turnings_of};
pub use weighing::{ways_of, word_of};
