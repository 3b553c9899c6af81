//! A way through a unit makes as many objects as were counted before it.
#![tactic(auto)]

mod laws;

pub use laws::static_laws;
