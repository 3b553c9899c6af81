//! What is made of two ways through a unit: of the first one the faults, the instances and where they stand, of the second one the
//! program.
#![tactic(auto)]

mod faults;
mod first;
mod plan;
mod program;

pub use first::start;
pub use plan::{Laid, Started};
pub use program::finish;
