//! The shapes of nodes: the full ranges of their variables and of the cells of their arrays, in the order of their places.
#![tactic(auto)]

mod layouts;
mod locals;
mod objects;
mod ranges;

pub use layouts::layout_at;
