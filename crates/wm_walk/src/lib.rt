//! A walk over the nodes of a graph in their order, by the label of each node: the labels that are needed are kept, and those
//! that no later node needs are given up.
#![tactic(auto)]

mod keeping;
mod labelling;
mod rows;

pub use keeping::{give_up_all, keep};
pub use labelling::label_of;
pub use rows::{Rows, ended_at, head_of, into_at, rows_of};
