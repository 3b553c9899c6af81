//! Assignments, steps and calls, and the parts of control statements that hold no statement.
#![tactic(auto)]

mod changes;
mod controls;

pub use changes::simple;
pub use controls::{ForHead, condition, control, for_head, leap, returned, tail, tested};
