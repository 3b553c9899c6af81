//! The finder: a state for each head of a graph that holds what both its edges allow. The states rise over the numbers of a grid to
//! the least accepted ones, and then are narrowed.
#![tactic(auto)]

mod finding;
mod images;
mod labels;
mod narrow;
mod nodes;
mod plan;
mod rise;
mod setting;
mod slim;
mod states;
mod tables;
mod whole;

pub use finding::find;
