//! The unit of the tokens of a call, without the forms of structs, or its refusal at a token.
#![tactic(auto)]

mod fault;
mod tree;

pub use tree::unit_of;
