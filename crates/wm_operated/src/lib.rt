//! Operators: the state behind an edge at which an operator is applied.
#![tactic(auto)]

mod flags;
mod operating;
mod sums;
mod values;

pub use operating::operated;
