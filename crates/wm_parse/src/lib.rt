//! The unit that a list of tokens is, or the first token that it cannot be one through.
#![tactic(auto)]

mod function;
mod item;
mod reading;

pub use reading::parse;
pub use wm_cursor::ParseFault;
