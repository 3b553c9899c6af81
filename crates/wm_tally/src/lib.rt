//! What the instances of a site show one after another, and the verdict that follows.
#![tactic(auto)]

mod entry;
mod seen;
mod told;

pub use entry::{Entry, Standing, entry_after, first_entry};
pub use seen::{Failure, Seen};
pub use told::verdict_of;
