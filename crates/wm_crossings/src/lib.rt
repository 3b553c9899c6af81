//! The edges on which a call begins and ends, and those to and from the head of the frames.
#![tactic(auto)]

mod arguments;
mod calls;
mod functions;
mod heads;
mod picks;

pub use calls::{enter, leave};
pub use functions::{
    addressed_in, parameters_of, result_of, result_size, scene_of, seats_of, size_at,
};
pub use heads::{from_head, to_head, to_head_from_start};
