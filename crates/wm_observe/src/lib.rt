//! What is seen of a program while sample frames are run: the numbers of its objects as the frames begin, and what the frames
//! count.
#![tactic(auto)]

mod functions;
mod lines;
mod observing;

pub use observing::observe;
