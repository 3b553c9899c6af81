//! The text of the worst choices: which words and which turns of loops make the bound of a frame.
#![tactic(auto)]

mod times;
mod words;
mod worst;

pub use times::{times_of, turns_of};
pub use worst::worst_text;
