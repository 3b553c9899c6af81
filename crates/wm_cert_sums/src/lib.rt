//! The sum counters that a certificate's text asks for.
#![tactic(auto)]

mod asked;
mod fitting;
mod reading;

pub use reading::read_sums;
