//! A certificate's text as plain data, or the first line through which the text begins none.
#![tactic(auto)]

mod begin;
mod fault;
mod pairs;
mod reading;
mod steps;
mod whole;

pub use fault::TextFault;
pub use whole::read;
