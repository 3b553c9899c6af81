//! Ties between the variables of a group, beside ranges of other variables and summaries of arrays. Only the calls that are
//! given an allocator take memory.
#![tactic(auto)]

mod assigning;
mod forms;
mod keeping;
mod projecting;
mod tied;

pub use projecting::{cut_all, kept_picks};
pub use tied::Tied;
