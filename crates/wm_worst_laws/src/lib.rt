//! Laws on the text of the worst choices, by which a reader can check that what it prints makes the bound.
#![tactic(auto)]

pub mod laws;
