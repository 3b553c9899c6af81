//! The expanded graph of a program.
#![tactic(auto)]

mod lowering;

pub use lowering::lower;
