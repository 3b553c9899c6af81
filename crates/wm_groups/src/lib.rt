//! Groups: abstract states that bound the variables of a group and the sums and differences of any two of them. Each other
//! variable has a range and each array a summary.
#![tactic(auto)]

mod groups;

pub use groups::Groups;
