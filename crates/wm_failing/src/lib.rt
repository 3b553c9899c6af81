//! What is tried at a site, and the first operands in their boxes, in lexicographic order, at which it fails.
#![tactic(auto)]

mod failing;
mod products;
mod trial;

pub use failing::first_failing;
pub use trial::{Trial, operands};
