//! What is told of a program: a verdict for each site, the turns of each loop, the state of each object and the bounds; and what
//! was seen of it.
#![tactic(auto)]

mod findings;

pub use findings::{Findings, Seen, Turns, Verdict};
