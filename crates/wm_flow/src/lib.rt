//! The expanded graph of a program, over which states are carried from node to node.
#![tactic(auto)]

mod action;
mod graph;
mod kept;
pub mod laws;
mod scene;
mod seats;

pub use action::{Action, Argument, Combined, Given, Growth, Returned};
pub use graph::{Bound, Edge, Facts, Graph, Head, Sum};
pub use kept::{Kept, Pair};
pub use scene::{Bases, Coming, Held, Scene, Sides, Source};
pub use seats::{Counts, LocalCounts, LocalSeat, Seat, Tables};
