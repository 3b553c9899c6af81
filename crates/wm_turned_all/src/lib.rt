//! A turn of a loop: all its counters grow or stick.
#![tactic(auto)]

mod turns;

pub use turns::turned_from;
