//! Whether the edges of a graph are such that their images can be made: what they name stands in the shapes of their nodes,
//! and what these have in common has the same ranges.
#![tactic(auto)]

mod acts;
mod calls;
mod counters;
mod edges;
mod forms;
mod lists;
mod shapes;
mod ways;

pub use edges::{is_drawn, shape_at};
pub use shapes::is_shape;
pub use ways::is_way;
