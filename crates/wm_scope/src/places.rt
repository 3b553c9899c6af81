// Where each word was declared last. A hash table finds the words.
ghost use Rattle.std.specs.Prelude.{◌≡◌, [], OnOk, OnErr};
ghost use Rattle.wm_scope.specs.Places.{last_in, put, put_back};

use crate::meaning::Meaning;
use indexmap::IndexMap;
use std::alloc::Global;
use std::marker::Model;
use wm_ops::NoMemory;

/// The last declaration of a word.
#[derive(Clone, Copy, Debug, PartialEq, Eq)]
pub struct Last {
    /// How many names were declared before it.
    pub place: usize,
    pub meaning: Meaning,
}

/// Words with their last declaration, or none any more, which contracts see as a list of pairs.
#[derive(Drop)]
pub struct Places {
    entries: IndexMap<Vec<u8>, Option<Last>>,
}

impl Model for Places {
    ghost use Rattle.std.specs.Prelude.{ℕ, List, Option};
    ghost use Rattle.wm_scope.specs.declared.places.Last.{Last};
    ghost use Rattle.wm_scope.specs.Pairs.{pairs};

    ghost Value = { List (List ℕ × Option Last) };

    ghost view = { λ places. pairs places.entries.entries };
}

impl Places {
    /// No words, without memory.
    pub fn new(alloc: Global) -> Places
        ensures empty { result ≡ [] }
    {
        Places {
            entries: IndexMap::new(alloc),
        }
    }

    /// The last declaration of a word.
    pub fn last(&self, word: &[u8]) -> Option<Last>
        ensures last { result ≡ last_in word.now self.now }
    {
        match self.entries.get(word) {
            None => None,
            Some(last) => *last,
        }
    }

    /// Keeps a word's last declaration. Where memory is refused nothing changes.
    pub fn put(&mut self, word: &[u8], last: Last) -> Result<(), NoMemory>
        ensures put { OnOk result (self.new ≡ put word.now last self.old) }
        ensures refused { OnErr result (self.new ≡ self.old) }
    {
        let word = Vec::from_slice(*self.entries.allocator(), word)?;
        self.entries.insert(word, Some(last))?;
        Ok(())
    }

    /// Keeps for a word that is there what was its last declaration before.
    pub fn put_back(&mut self, word: &[u8], before: Option<Last>)
        ensures put_back { self.new ≡ put_back word.now before self.old }
    {
        match self.entries.get_mut(word) {
            None => {}
            Some(last) => *last = before,
        }
    }
}
