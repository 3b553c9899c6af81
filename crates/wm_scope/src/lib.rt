//! What the names of a unit stand for at each place, and what the reading of a unit gives.
#![tactic(auto)]

mod fault;
mod meaning;
mod names;
mod places;
mod reading;
mod scope;

pub use fault::{Found, TokenFault};
pub use meaning::{Meaning, Named, outermost};
pub use names::Names;
pub use reading::{CallPlace, Reading};
pub use scope::{Scope, Signature, Slot};
