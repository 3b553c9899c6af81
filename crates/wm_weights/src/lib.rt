//! The weights of counted words: those of a file, or 1 for each.
#![tactic(auto)]

mod fault;
mod read;
mod weights;

pub use fault::WeightFault;
pub use read::read_weights;
pub use weights::{Weights, all_ones};
