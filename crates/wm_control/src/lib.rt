//! The pieces of statements in a graph: counted words, blocks that are left, jumps, joins, and the edges of loops.
#![tactic(auto)]

mod around;
mod blocks;
mod counted;
mod jumps;
mod loops;
mod made;
mod sums;

pub use around::Around;
pub use blocks::{clear, clear_both};
pub use counted::word;
pub use jumps::{join, jump, jump_out};
pub use loops::{enter, inside, turn};
pub use made::{joined, made_in};
pub use sums::{ties, ties_size};
