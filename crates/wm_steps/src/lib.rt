//! The single steps of expressions: reads, tests, operators, and values that wait in temporaries.
#![tactic(auto)]

mod conversions;
mod marks;
mod operators;
mod places;
mod reads;
mod temporaries;
mod tests;
mod waits;
mod yields;

pub use conversions::narrow;
pub use marks::plain;
pub use operators::{apply, operands, operate, value_at};
pub use places::{place, place_form};
pub use reads::{interval, named, read, reading};
pub use temporaries::{after, no_values, step, to_temporary, with_value};
pub use tests::{tested_itself, tested_negative};
pub use waits::{Waiting, wait_left};
pub use yields::yielded;
