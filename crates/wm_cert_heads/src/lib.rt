//! Whether the heads of a certificate's text are those of a graph.
#![tactic(auto)]

mod matching;
mod sums;

pub use matching::has_heads;
