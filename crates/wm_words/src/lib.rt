// The words of the command line as one of seven commands, or as bad words. Nothing here takes memory.
#![tactic(auto)]

mod command;
mod stages;

pub use command::{Command, read_words};
