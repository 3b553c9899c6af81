//! What is proved of a program: the graph for the sum counters that are chosen, a certificate that is accepted, and its findings;
//! the same of a certificate that is read; and the worst choice of each frame function.
#![tactic(auto)]

mod boxes;
mod checking;
mod choices;
mod finding;
mod shapes;

pub use boxes::are_fitting;
pub use checking::checked;
pub use choices::worst_choices;
pub use finding::{Proof, proved};
