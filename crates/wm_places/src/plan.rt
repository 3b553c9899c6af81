// What is the same for all nodes of a program.
use std::alloc::Global;
use wm_flow::{Sum, Tables};
use wm_ops::List;
use wm_program::Program;

/// The program, where things stand in it, the sum counters of each head, how many nodes each instance has, and where
/// memory comes from.
#[derive(Clone, Copy)]
pub struct Plan<'p> {
    pub alloc: Global,
    pub program: &'p Program,
    pub tables: &'p Tables,
    /// By head.
    pub sums: &'p [List<Sum>],
    /// By instance.
    pub sizes: &'p [u32],
}
