//! The text of a certificate.
#![tactic(auto)]

mod heads;
mod printed;
mod written;

pub use written::write_text;
