//! The state with which a run starts.
#![tactic(auto)]

mod objects;
mod places;
mod starting;

pub use starting::first;
