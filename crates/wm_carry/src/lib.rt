//! States carried from a node to the next: the group, the singles and the arrays of the two are paired each by place, what
//! only the first has is dropped, and what only the second has may be any.
#![tactic(auto)]

mod carry;
mod origins;
mod way;

pub use carry::carried;
pub use origins::origin;
pub use way::Way;
