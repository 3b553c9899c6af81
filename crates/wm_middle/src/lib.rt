//! The shape between a call's node and the first node of the callee: variables of the caller beside parameters.
#![tactic(auto)]

mod middle;
mod parts;
mod shapes;

pub use middle::{Call, Middle, middle_of};
pub use parts::{Part, callers, find};
pub use shapes::{backs, shape_of};
