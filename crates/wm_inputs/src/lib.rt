//! How a program begins: its init and frame functions, its inputs, and the function that chooses between several frame
//! functions.
#![tactic(auto)]

mod choice;
mod named;
mod objects;
mod places;
mod ranges;

pub use choice::{call_object, call_places, chooser};
pub use named::{entries, entry, missing_entry};
pub use objects::marked_objects;
pub use places::definitions;
pub use ranges::{bad_range, call_input, inputs};
