//! The expressions that begin a list of tokens.
#![tactic(auto)]

mod chain;
mod expression;
mod grammar;

pub use expression::pointed;
pub use grammar::{Reach, call_at, spot_at, whole};
