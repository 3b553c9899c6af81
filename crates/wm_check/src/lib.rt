//! The check of a certificate: it is accepted where the state of each head holds what both its edges allow from the labels of the
//! nodes; then the labels tell the findings.
#![tactic(auto)]

mod checking;
mod told;
mod turning;
mod watching;

pub use checking::{CheckFault, check};
pub use told::facts;
