//! A turn of a loop, from the end of its body to its head.
#![tactic(auto)]

mod turning;

pub use turning::turned;
