//! The bodies of functions with their names known: assignments, declarations and statements.
#![tactic(auto)]

mod acts;
mod declarations;
mod lengths;
mod statements;
mod work;

pub use acts::simple;
pub use declarations::{declaration, name_of, object, object_meaning};
pub use lengths::array_length;
pub use statements::items;
pub use work::Work;
