//! Quotients of two forms in 32 bits, as far as states tell their numbers.
#![tactic(auto)]

mod quotients;

pub use quotients::quotient;
