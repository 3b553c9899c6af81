//! What a command works on: from the files of a call to the specification, the weights, the program and the samples, or to
//! the first refusal in the order of a call.
#![tactic(auto)]

mod check;
mod linking;
mod loaded;
mod replay;

pub use check::{Check, check_files};
pub use loaded::{Loaded, load, load_texts};
pub use replay::{Replay, replay_files};
