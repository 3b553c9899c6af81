//! Laws of every domain: what a call makes of a state with fewer points has fewer points.
#![tactic(auto)]

mod laws;

pub use laws::{smaller_image, smaller_join};
