//! The instances of a graph, and the whole graph of its strokes.
#![tactic(auto)]

mod drawing;
mod parts;
mod sizes;

pub use drawing::drawn;
pub use parts::{part_size, part_strokes};
pub use sizes::sizes_of;
