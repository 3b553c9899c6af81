//! Decimal numbers at the end of a text.
#![tactic(auto)]

mod digits;

pub use digits::{push_number, push_signed, push_wide};
