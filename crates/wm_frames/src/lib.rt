//! The strokes of a graph outside of its instances: what runs before the frames, the head of the frames, the inputs, and the
//! way back.
#![tactic(auto)]

mod frames;
mod inputs;

pub use frames::whole_strokes;
pub use inputs::taking_inputs;
