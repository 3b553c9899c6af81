//! The tables of a program: where its objects and locals stand in the shapes of the nodes, and the numbers of its heads.
#![tactic(auto)]

mod locals;
mod loops;
mod objects;
mod rows;
mod tables;
mod values;

pub use rows::sum_rows;
pub use tables::tables_of;
pub use values::{high_of, low_of};
