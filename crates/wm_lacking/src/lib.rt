//! The first counted word that a program uses and that has no weight.
#![tactic(auto)]

mod word;

pub use word::lacking;
