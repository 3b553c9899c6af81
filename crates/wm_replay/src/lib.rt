//! The frames of a sample file, run one after another: what came of the start and of each frame up to the first that does not
//! end.
#![tactic(auto)]

mod running;

pub use running::{Results, replay};
