// The way from a node to the next.
use std::alloc::Global;
use wm_domain::Shape;

/// The shapes of a node and of the next, and where memory comes from.
#[derive(Clone, Copy)]
pub struct Way<'g> {
    pub alloc: Global,
    pub source: &'g Shape,
    pub target: &'g Shape,
}
