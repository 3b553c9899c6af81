//! What is drawn of an expression once its parts have been evaluated.
#![tactic(auto)]

mod arguments;
mod calls;
mod elements;
mod numbers;

pub use arguments::{passed_value, passed_view, passed_whole};
pub use calls::called;
pub use elements::{cells_in, element, locate};
pub use numbers::{cast, negated, operated};
