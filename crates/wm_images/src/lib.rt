//! What the walk over a graph asks of the images of states along its edges, and the image of states that are kept.
#![tactic(auto)]

mod along;
mod images;

pub use along::image_along;
pub use images::Images;
