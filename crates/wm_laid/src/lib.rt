//! Laws on graphs: those of programs are laid out as the laws on paths ask.
#![tactic(auto)]

pub mod laws;
