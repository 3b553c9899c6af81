//! A variable of the next node gets the value of a form of any number of terms.
#![tactic(auto)]

mod assigned;
mod pairs;

pub use assigned::formed;
pub use pairs::pair_value;
