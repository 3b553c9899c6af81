// Where something runs.
use std::alloc::Global;
use wm_program::{Program, Root};
use wm_weights::Weights;

/// The program, its weights, an instance, what the view parameters of the instance look into, and how many calls may
/// still be open at once.
#[derive(Clone, Copy)]
pub(crate) struct Scene<'a> {
    pub(crate) program: &'a Program,
    pub(crate) weights: &'a Weights,
    pub(crate) alloc: Global,
    pub(crate) instance: u32,
    pub(crate) roots: &'a [Root],
    pub(crate) levels: u32,
}
