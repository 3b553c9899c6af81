// The numbers that one frame reads.
use wm_ops::List;

/// One number for each input cell, the inputs in their order and the cells of each from 0.
#[derive(Drop)]
pub struct Inputs {
    pub values: List<i64>,
}
