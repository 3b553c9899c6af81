//! The top call of the product: words in, a text or one fault line out, and a status.
#![tactic(auto)]

mod call;
mod checking;
mod command;
mod demo;
mod outcome;
mod proving;
mod sampling;

pub use call::run;
