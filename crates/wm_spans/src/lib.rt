//! Ranges of variables and summaries of arrays: the part of a state that relates nothing to anything else. Only the calls
//! that are given an allocator take memory.
#![tactic(auto)]

mod drawing;
mod following;
mod forms;
mod joining;
mod spans;
mod sums;
mod terms;

pub use forms::limits;
pub use spans::Spans;
pub use terms::turned;
