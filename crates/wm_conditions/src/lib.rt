//! Conditions, drawn: each leads from a node without temporaries to two such nodes, one where it holds and one where it does
//! not.
#![tactic(auto)]

mod conditions;
mod evaluation;

pub use conditions::{condition, optional_condition};
