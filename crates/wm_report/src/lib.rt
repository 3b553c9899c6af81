//! The texts that the program prints: letter by letter a function of what is told.
#![tactic(auto)]

mod fault;
mod fault_line;
mod gap_words;
mod pieces;
mod replay;
mod words;

pub use fault::{At, RunFault, SourceName};
pub use fault_line::{fault_text, status_of};
pub use replay::replay_text;
