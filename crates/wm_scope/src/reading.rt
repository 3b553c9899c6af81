// What the reading of a unit gives.
use crate::fault::Found;
use wm_lang::Position;
use wm_ops::List;
use wm_program::{Array, FunctionInfo, LoopInfo, ObjectInfo, SiteInfo};

/// A call of a function in the body of another.
#[derive(Drop)]
pub struct CallPlace {
    /// The number of the called function.
    pub function: u32,
    /// The called name.
    pub at: Position,
    /// What is handed to each view parameter, in the order of the parameters.
    pub views: List<Array>,
}

/// What one way through a unit gives. Where there is a fault the rest may be any stand-in but the calls.
#[derive(Drop)]
pub struct Reading {
    /// The functions that have a block, in the order of the source.
    pub functions: List<FunctionInfo>,
    /// The objects of static storage, in the order of declaration.
    pub objects: List<ObjectInfo>,
    /// The places that may fail, in their order.
    pub sites: List<SiteInfo>,
    /// The loops, in the order of the source.
    pub loops: List<LoopInfo>,
    /// For each function the calls of functions in it, in the order of the source.
    pub calls: List<List<CallPlace>>,
    /// The least fault at a token, but for calls in a circle.
    pub least: Option<Found>,
}
