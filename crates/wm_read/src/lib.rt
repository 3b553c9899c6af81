//! The files of a call: each is read under its limit, and what is wrong with it is a refusal of the call.
#![tactic(auto)]

mod certificate;
mod fault;
mod input;
mod samples;
mod sources;
mod specification;
mod texts;
mod weights;

pub use certificate::read_certificate;
pub use samples::read_samples;
pub use texts::{Texts, read_check_texts, read_texts};
