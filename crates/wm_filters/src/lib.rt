//! Changes of a state that keep each point at which what is set holds already.
#![tactic(auto)]

mod filters;
mod parts;

pub use filters::{put_cells, put_form, put_near, put_range};
pub use parts::{differences, words};
