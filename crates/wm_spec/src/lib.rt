//! The specification of a codec: a TOML table with its files, functions, limits and inputs.
#![tactic(auto)]

mod fault;
mod inputs;
mod lists;
mod read;
mod values;

pub use fault::SpecFault;
pub use read::read_spec;
