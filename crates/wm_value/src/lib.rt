//! Expressions with their names known: numbers, conditions and views, each place that may fail with its site.
#![tactic(auto)]

mod expression;
mod form;
mod kinds;
mod needs;
mod steps;
mod widths;

pub use expression::{operands, passed, value};
pub use form::{Begun, Head, Sight, Value};
pub use kinds::{address, array_at, condition_of, is_narrow, named, number_of, pointed};
pub use needs::{call, condition, number};
pub use widths::{narrowing, narrows, spot_width, width_of};
