//! Counters of loops at a turn: they grow by their steps, and stick at 2147483647.
#![tactic(auto)]

mod one;

pub use one::{grow, may_stick, stick};
