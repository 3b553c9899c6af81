//! The text of a certificate: for each head its name, its sum counters, and the bounds of its state.
#![tactic(auto)]

mod digits;
mod lines;
mod told;
mod write;

pub use told::{Cells, Ends, Head, HeadName, Kind, Pair, State, SumStep};
pub use write::certificate_text;
