//! What is collected while a unit is read: sites, calls, loops, the variables whose address is taken, and the least fault.
#![tactic(auto)]

mod marks;
mod numbers;
mod taken;

pub use marks::Marks;
pub use numbers::number_of;
pub use taken::Taken;
