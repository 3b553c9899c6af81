// Names and what they stand for. A map finds each, and they keep the order in which they were declared.
ghost use Rattle.std.specs.Prelude.{◌≡◌, [], OnOk};
ghost use Rattle.std.specs.Option.{option_copied};
ghost use Rattle.wm_members.specs.Tables.{found, added, all_of};

use indexmap::IndexMap;
use std::alloc::Global;
use std::marker::Model;
use wm_ops::NoMemory;

/// Names with a value each, which contracts see as the list of the pairs in order.
#[derive(Drop)]
pub struct Table<'u, V> {
    entries: IndexMap<&'u [u8], V>,
}

impl<'u, V> Model for Table<'u, V> {
    ghost use Rattle.std.specs.Prelude.{ℕ, List};
    ghost use Rattle.wm_members.specs.Tables.{named};

    ghost Value = { List (List ℕ × V) };

    ghost view = { λ table. named table.entries.entries };
}

impl<'u, V> Table<'u, V> {
    /// No names.
    pub fn new(alloc: Global) -> Table<'u, V>
        ensures empty { result ≡ [] }
    {
        Table {
            entries: IndexMap::new(alloc),
        }
    }

    /// What a name stands for.
    pub fn get(&self, name: &[u8]) -> Option<&V>
        ensures found { option_copied result ≡ found name.now self.now }
    {
        self.entries.get(name)
    }

    /// The values in the order of their names.
    pub fn values(&self) -> &[V]
        ensures values { result.now ≡ all_of self.now }
    {
        self.entries.values().as_slice()
    }
}

impl<'u, V: Drop> Table<'u, V> {
    /// A name behind those that are there, unless it is one of them.
    pub fn add(&mut self, name: &'u [u8], value: V) -> Result<(), NoMemory>
        ensures added { OnOk result (self.new ≡ added name.now value self.old) }
    {
        if self.entries.get(name).is_some() {
            return Ok(());
        }
        self.entries.insert(name, value)?;
        Ok(())
    }
}
