//! A generated codec of any number of stages, to try the prover on: its specification and its one source file.
#![tactic(auto)]

mod files;
mod lines;
mod text;
mod writing;

pub use files::Example;
pub use writing::example;
