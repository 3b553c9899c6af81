//! Statements without words of their own, and declarations, drawn. Each begins and ends at a node without temporaries.
#![tactic(auto)]

mod declarations;
mod simple;
mod stores;

pub use declarations::declared;
pub use simple::{effect, effects};
