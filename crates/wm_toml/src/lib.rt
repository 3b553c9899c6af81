//! TOML documents as tables: one fault where the bytes are no document, and one where memory ran out.
#![tactic(auto)]

mod table;

pub use table::{TableFault, read_table};
