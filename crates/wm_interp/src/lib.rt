//! A plain interpreter of linked programs: it runs frame after frame and counts weights.
#![tactic(auto)]

mod access;
mod calls;
mod fill;
mod frames;
mod halt;
mod machine;
mod memory;
mod numbers;
mod operations;
mod run;
mod scene;
mod store;

pub use machine::Machine;
pub use wm_program::{Cause, End, Event, FrameResult};
