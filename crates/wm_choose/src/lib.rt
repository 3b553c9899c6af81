//! The choice of sum counters, by the labels of an accepted certificate of the graph without them.
#![tactic(auto)]

mod choose;
mod totals;

pub use choose::choose_sums;
