//! The pen with which a graph is drawn: it records strokes one after another, or only counts the nodes that they make.
#![tactic(auto)]

mod pen;
mod points;
mod stroke;

pub use pen::{Mode, Pen};
pub use stroke::Stroke;
