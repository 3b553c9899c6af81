//! Whether the states of heads are accepted: a walk over the nodes in their order, in which each head's state has to hold what its
//! two edges allow.
#![tactic(auto)]

mod entries;
mod gaps;
mod visit;
mod walking;
mod watcher;

pub use entries::Entry;
pub use walking::walk;
pub use watcher::{Unwatched, Watcher};
