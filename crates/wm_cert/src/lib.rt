//! Certificates: what is told where one does not hold.
#![tactic(auto)]

mod gap;

pub use gap::{End2, Gap, Line};
