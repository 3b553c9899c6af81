//! The edges of a graph, each apart from the others: what an edge reads or changes beside the group stands alone in slim nodes at
//! its ends, and all else passes it as it is.
#![tactic(auto)]

mod actions;
mod apart;
mod calls;
mod lists;
mod named;
mod renaming;
mod shapes;

pub use apart::{Apart, Part, Passed, apart_of};
