//! Whether a run may stop at a node, by the label of the node and the edges behind it.
#![tactic(auto)]

mod leading;
mod stopping;

pub use leading::{edges_from, stops_at};
pub use stopping::stops;
