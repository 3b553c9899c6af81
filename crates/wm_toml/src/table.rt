// Reads a document with `toml`, and tells want of memory from bytes that are no document.
ghost use Rattle.std.specs.Prelude.{◌≡◌};
ghost use Rattle.wm_toml.specs.Document.{document, GivesTable};

use std::alloc::Global;
use toml::Table;

/// Why a document gave no table.
#[derive(Clone, Copy, Debug, PartialEq, Eq)]
pub enum TableFault {
    /// The bytes are no TOML 1.1 document in UTF-8, or one that nests deeper than 80.
    NotToml,
    /// Memory ran out.
    NoMemory,
}

/// The table of a TOML document. `NotToml` stands exactly where the bytes are none.
pub fn read_table(alloc: Global, bytes: &[u8]) -> Result<Table, TableFault>
    ensures table { GivesTable result (document bytes.now) }
{
    match toml::table_from_slice(alloc, bytes) {
        Ok(table) => Ok(table),
        Err(error) if error.is_memory() => Err(TableFault::NoMemory),
        Err(_) => Err(TableFault::NotToml),
    }
}
