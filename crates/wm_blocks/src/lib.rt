//! Statements and blocks.
#![tactic(auto)]

mod nesting;
mod statement;

pub use nesting::block_at;
