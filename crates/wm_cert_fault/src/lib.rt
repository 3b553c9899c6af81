//! Why bytes are no certificate of a graph.
#![tactic(auto)]

mod fault;

pub use fault::{CertFault, of_text};
