//! One way through a unit: its functions, objects, sites, loops and calls, or the least fault at a token.
#![tactic(auto)]

mod finish;
mod function;
mod outline;
mod statics;
mod unit;

pub use unit::read_unit;
