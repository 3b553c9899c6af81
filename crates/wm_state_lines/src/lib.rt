//! What the objects of static storage may be as a frame begins, by the state of the frame head.
#![tactic(auto)]

mod lines;

pub use lines::state_lines;
