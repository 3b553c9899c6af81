//! The basic operators of ITU-T G.191, the words that a complexity count counts, and two small types that every
//! other crate shares: the want of memory and a list.
#![tactic(auto)]

mod choices;
mod clamping;
mod division;
mod formulas;
mod laws;
mod lists;
mod memory;
mod names;
mod norms;
mod operators;
mod outcomes;
mod parts;
mod products;
mod rows;
mod search;
mod shifts;
mod sums;
mod tables;
mod words;

pub use laws::operator_laws;
pub use lists::List;
pub use memory::NoMemory;
pub use names::{by_name, counted_by_name};
pub use operators::{OPERATORS, Op, Width, arg_width, arity, name, op_at, op_number, result_width};
pub use outcomes::{Outcome, apply};
pub use tables::OpTable;
pub use words::{
    COUNTED_WORDS, ControlWord, CountCall, Counted, counted_at, counted_name, counted_number,
};
