// Names in the order of their declarations, each found by a hash table.
ghost use Rattle.std.specs.Prelude.{◌≡◌, [], ◌∷◌, ◌++◌, ◌-◌, take, drop, length, unwrap_or, OnOk, OnErr};
ghost use Rattle.wm_scope.specs.declared.meaning.Meaning.{Meaning};
ghost use Rattle.wm_scope.specs.Names.{latest, is_among};
ghost use Rattle.wm_scope.specs.Indexed.{meaning_or, is_behind};

use crate::meaning::{Meaning, Named};
use crate::places::{Last, Places};
use std::alloc::Global;
use std::marker::Model;
use wm_ops::NoMemory;

/// A name with the last declaration of the same word before it.
#[derive(Drop)]
pub struct Entry {
    named: Named,
    before: Option<Last>,
}

/// Names in the order of their declarations, which contracts see as a list.
#[derive(Drop)]
pub struct Names {
    entries: Vec<Entry>,
    places: Places,
}

impl Model for Names {
    ghost use Rattle.std.specs.Prelude.{List};
    ghost use Rattle.wm_scope.specs.declared.meaning.Named.{Named};
    ghost use Rattle.wm_scope.specs.Indexed.{names_of, AreIndexed};

    ghost Value = { List Named };

    ghost view = { λ names. names_of names.entries.items };

    ghost invariant = { λ names. AreIndexed names.places names.entries.items };
}

fn meaning_at(last: Option<Last>) -> Option<Meaning>
    ensures { (before : Meaning) → unwrap_or result before ≡ meaning_or last before }
{
    match last {
        None => None,
        Some(last) => Some(last.meaning),
    }
}

fn is_behind(outer: usize, last: Option<Last>) -> bool
    ensures { result ≡ is_behind outer last }
{
    match last {
        None => false,
        Some(last) => last.place >= outer,
    }
}

impl Names {
    /// No names, without memory.
    pub fn new(alloc: Global) -> Names
        ensures empty { result ≡ [] }
    {
        Names {
            entries: Vec::new(alloc),
            places: Places::new(alloc),
        }
    }

    /// How many there are.
    pub fn len(&self) -> usize
        ensures length { result ≡ length self.now }
    {
        self.entries.len()
    }

    /// What the last name that is this one stands for. None where what was meant before stays.
    pub fn latest(&self, word: &[u8]) -> Option<Meaning>
        ensures meaning { (before : Meaning) → unwrap_or result before ≡ latest word.now self.now before }
    {
        let _entries = &self.entries;
        meaning_at(self.places.last(word))
    }

    /// Whether a name behind so many is this one.
    pub fn has_behind(&self, outer: usize, word: &[u8]) -> bool
        ensures among { result ≡ is_among word.now (drop outer self.now) }
    {
        let _entries = &self.entries;
        is_behind(outer, self.places.last(word))
    }

    /// Whether one of the names is this one.
    pub fn has(&self, word: &[u8]) -> bool
        ensures among { result ≡ is_among word.now self.now }
    {
        self.has_behind(0, word)
    }

    /// Puts a name at the end. Where memory is refused the names stay as they were.
    pub fn push(&mut self, named: Named) -> Result<(), NoMemory>
        ensures grown { OnOk result (self.new ≡ self.old ++ named ∷ []) }
        ensures refused { OnErr result (self.new ≡ self.old) }
    {
        let last = Last {
            place: self.entries.len(),
            meaning: named.meaning,
        };
        let before = self.places.last(named.name.bytes());
        self.places.put(named.name.bytes(), last)?;
        match self.entries.push(Entry { named, before }) {
            Ok(()) => Ok(()),
            Err(refused) => {
                let entry = refused.value;
                self.places.put_back(entry.named.name.bytes(), entry.before);
                Err(NoMemory)
            }
        }
    }

    /// Takes the last name out.
    fn drop_last(&mut self)
        ensures { self.new ≡ take (length self.old - 1) self.old }
    {
        match self.entries.pop() {
            None => {}
            Some(entry) => self.places.put_back(entry.named.name.bytes(), entry.before),
        }
    }

    /// Takes the names from this place on out.
    pub fn keep(&mut self, count: usize)
        ensures kept { self.new ≡ take count self.old }
    {
        for _ in count..self.len() {
            self.drop_last();
        }
    }
}
