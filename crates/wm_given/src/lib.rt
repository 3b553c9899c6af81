//! The numbers of an interval between two values of a form.
#![tactic(auto)]

mod cuts;

pub use cuts::cut;
