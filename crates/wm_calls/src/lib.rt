//! The calls between functions: which of them can come back to their caller, and how many instances each leads to.
#![tactic(auto)]

mod back;
mod rounds;
mod trees;

pub use back::recursion;
pub use trees::{call_offsets, size_at, tree_sizes};
