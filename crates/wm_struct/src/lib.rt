//! Units without structs of scalars and arrays: a struct object is one object for each member, a struct parameter one view
//! parameter for each member. Beside the expanded unit stand the struct faults.
#![tactic(auto)]

mod declaration;
mod expansion;
mod item;
mod names;
mod parameter;
mod simple;
mod statement;

pub use expansion::expand;
pub use wm_members::StructFault;
