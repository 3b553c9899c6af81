//! The edges of a graph by the node to which they lead, and the heads by the node at which they stand.
#![tactic(auto)]

mod edges;
mod heads;

pub use edges::incoming;
pub use heads::heads_by_node;
