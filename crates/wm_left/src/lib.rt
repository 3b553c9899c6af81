//! Returns: the state behind a call, from those at the callee's exit and at the call's node.
#![tactic(auto)]

mod pairs;
mod returns;
mod single;

pub use returns::{Return, left};
