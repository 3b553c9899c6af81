//! What an edge of a site shows by the state before it: whether the site fails there, and for which operands first.
#![tactic(auto)]

mod forms;
mod ranges;
mod sums;
mod trials;

pub use trials::{argument, form_stays, look, word};
