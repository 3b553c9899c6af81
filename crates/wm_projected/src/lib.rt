//! Ties beside ranges and summaries, drawn for variables and arrays that are picked of others.
#![tactic(auto)]

mod drawn;
mod following;
mod lying;
mod projecting;
mod whole;

pub use following::followed;
pub use projecting::projected;
