//! The states of some nodes, kept while they are needed.
#![tactic(auto)]

mod kept;
mod places;

pub use kept::Kept;
