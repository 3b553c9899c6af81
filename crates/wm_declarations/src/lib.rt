//! Declarations of objects and structs.
#![tactic(auto)]

mod declarations;
mod structures;

pub use declarations::{Front, base_type, declaration, declared, length, words};
pub use structures::{objects, structure};
