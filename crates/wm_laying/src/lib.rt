//! Where the instances of calls stand.
#![tactic(auto)]

mod laws;

pub use laws::laying_laws;
