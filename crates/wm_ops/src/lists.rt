// A list that grows at its end, seen by contracts as its items and not as a buffer.
ghost use Rattle.std.specs.Prelude.{◌≡◌, [], ◌∷◌, ◌++◌, OnOk, OnErr};

use crate::memory::NoMemory;
use std::alloc::Global;
use std::marker::Model;

/// A list over a `Vec`, which contracts see as the list of its items.
#[derive(Debug, Drop)]
pub struct List<T> {
    items: Vec<T>,
}

impl<T> Model for List<T> {
    ghost use Rattle.std.specs.Prelude as std;
    ghost use Rattle.std.specs.Coded.{coded_list};

    ghost Value = { std.List T };

    ghost coded = { coded_list T.code };

    ghost view = { λ list. list.items.items };
}

impl<T> List<T> {
    /// The empty list, which takes no memory.
    pub fn new(alloc: Global) -> List<T>
        ensures empty { result ≡ [] }
    {
        List {
            items: Vec::new(alloc),
        }
    }

    /// The items in order, without memory.
    pub fn items(&self) -> &[T]
        ensures items { result.now ≡ self.now }
    {
        self.items.as_slice()
    }
}

impl<T: Drop> List<T> {
    /// Puts an item at the end. Where memory is refused the item is dropped and the list stays as it was.
    pub fn push(&mut self, item: T) -> Result<(), NoMemory>
        ensures grown { OnOk result (self.new ≡ self.old ++ item ∷ []) }
        ensures refused { OnErr result (self.new ≡ self.old) }
    {
        self.items.push(item)?;
        Ok(())
    }
}
