//! The instances of init and of the frame function.
#![tactic(auto)]

mod laws;

pub use laws::laid_laws;
