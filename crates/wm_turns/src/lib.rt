//! The turns of each loop over all its instances, from the turns of each head and from the edges that are live.
#![tactic(auto)]

mod loops;

pub use loops::turns_by_loop;
