//! The state of a domain that the lines of a certificate bound.
#![tactic(auto)]

mod arrays;
mod bounds;
mod cuts;
mod forms;
mod states;

pub use states::state_of;
