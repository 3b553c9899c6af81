//! What is read of expressions and acts, faulty or not, only adds to what was collected.
#![tactic(auto)]

mod laws;

pub use laws::growth_laws;
