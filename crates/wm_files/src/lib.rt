// What the product asks of the world outside: files by name and a sink for its text, in memory and real.
#![tactic(auto)]

mod memory;
mod outside;
mod plan;
mod real;
#[cfg(test)]
mod tests;

pub use memory::{MemoryFiles, MemorySink};
pub use outside::{Files, ReadFault, Sink, WriteFault};
pub use real::{RealFiles, RealOut};
