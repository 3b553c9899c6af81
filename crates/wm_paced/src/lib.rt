//! Sum counters that go with the counter of their loop.
#![tactic(auto)]

mod numbers;
mod paces;

pub use paces::{Pace, paced};
