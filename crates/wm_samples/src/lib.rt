//! Sample files: the numbers of each frame, one for each input cell.
#![tactic(auto)]

mod cells;
mod fault;
mod numbers;
mod read;

pub use fault::SampleFault;
pub use read::frames;
