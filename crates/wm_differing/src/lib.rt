//! What the result of an operator differs by from its first argument.
#![tactic(auto)]

mod changes;

pub use changes::change;
