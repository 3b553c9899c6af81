//! The tokens of the sources of a call, and the places of what is wrong with them.
#![tactic(auto)]

mod link;
mod place;
mod token;

pub use link::link_fault;
pub use place::{at_token, source_fault};
pub use token::read_tokens;
