//! Calls: the state at a callee's first node, from that at the call's node.
#![tactic(auto)]

mod arguments;
mod between;
mod entering;
mod values;

pub use entering::entered;
