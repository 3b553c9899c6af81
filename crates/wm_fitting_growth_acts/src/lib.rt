//! What is read of acts and of the parts of statements, faulty or not, only adds to what was collected.
#![tactic(auto)]

mod laws;

pub use laws::growth_laws;
