// The macros in force (C99 6.10.3), which a map finds by name.
ghost use Rattle.std.specs.Prelude.{◌≡◌, ◌<◌, List, [], ◌∷◌, ◌++◌, ◌&&◌, not, is_some, length, slice_index_or, slice_set, IfSome, IfOk, OnOk, None};
ghost use Rattle.std.specs.Option.{option_copied};

use crate::lexeme::Lexeme;
use std::alloc::Global;
use std::collections::HashMap;
use std::marker::Model;
use wm_lang::Name;
use wm_ops::NoMemory;

/// The lexemes that replace a macro, which contracts see as a list.
#[derive(Drop)]
pub struct Replacement {
    items: Vec<Lexeme>,
}

impl Model for Replacement {
    ghost use Rattle.std.specs.Prelude.{List};
    ghost use Rattle.wm_lex.specs.declared.lexeme.Lexeme.{Lexeme};

    ghost Value = { List Lexeme };

    ghost view = { λ replacement. replacement.items.items };
}

impl Replacement {
    pub fn new(items: Vec<Lexeme>) -> Replacement
        ensures { result ≡ items.items }
    {
        Replacement { items }
    }

    pub fn items(&self) -> &[Lexeme]
        ensures { result.now ≡ self.now }
    {
        self.items.as_slice()
    }
}

/// A name that was ever defined.
#[derive(Drop)]
pub struct Macro {
    pub name: Name,
    /// What replaces it; None where it is no more in force.
    pub lexemes: Option<Replacement>,
    /// Whether it is one of the four at the start, and no define has named it.
    pub is_first: bool,
}

/// The names that were ever defined, which contracts see as a list of macros.
#[derive(Drop)]
pub struct Definitions {
    macros: Vec<Macro>,
    /// The place of each name in the list.
    places: HashMap<Vec<u8>, usize>,
}

impl Model for Definitions {
    ghost use Rattle.std.specs.Prelude.{◌≡◌, ℕ, List, nat_eq};
    ghost use Rattle.std.specs.Cmp.Lexicographic.{pointwise};
    ghost use Rattle.std.specs.HashMap.{get_by};
    ghost use Rattle.wm_lex.specs.declared.definitions.Macro.{Macro};
    ghost use Rattle.wm_lex.specs.Macros.{place_in};

    ghost Value = { List Macro };

    ghost view = { λ definitions. definitions.macros.items };

    ghost invariant = { λ definitions. (word : List ℕ) → get_by (λ k. pointwise nat_eq word k.items) definitions.places ≡ place_in word definitions.macros.items };
}

impl Definitions {
    ghost use Rattle.wm_lex.specs.Macros.{list_of, is_named, with_macro, ended, without_macro, place_in};
    ghost use Rattle.wm_lex.specs.declared.definitions.Macro.{Macro};
    ghost use Rattle.wm_lex.specs.Walks.{place_in_force};

    /// No macro.
    pub fn new(alloc: Global) -> Definitions
        ensures { result ≡ [] }
    {
        Definitions {
            macros: Vec::new(alloc),
            places: HashMap::new(alloc),
        }
    }

    /// How many names were ever defined.
    pub fn len(&self) -> usize
        ensures { result ≡ length self.now }
    {
        self.macros.len()
    }

    /// The macro at this place.
    pub fn macro_at(&self, place: usize) -> &Macro
        requires { place < length self.now }
        ensures { result.now ≡ slice_index_or self.now place result.now }
    {
        &self.macros[place]
    }

    /// What the map has of this name.
    fn found(&self, word: &[u8]) -> Option<usize>
        ensures { result ≡ place_in word.now self.now }
    {
        self.places.get(word).copied()
    }

    /// The place of this name among the macros.
    pub fn place_in(&self, word: &[u8]) -> Option<usize>
        ensures place { result ≡ place_in word.now self.now }
        ensures within { IfSome result (λ place. place < length self.now) }
    {
        self.found(word)
    }

    /// The list that replaces a word; None where it is no macro in force.
    pub fn list_of(&self, word: &[u8]) -> Option<&[Lexeme]>
        ensures { option_copied result ≡ list_of word.now self.now }
    {
        match self.place_in(word) {
            None => None,
            Some(place) => list_in(self.macro_at(place)),
        }
    }

    /// The place of a macro in force that a word is.
    pub fn place_in_force(&self, word: &[u8]) -> Option<usize>
        ensures place { result ≡ place_in_force word.now self.now }
        ensures within { IfSome result (λ place. place < length self.now) }
    {
        match self.place_in(word) {
            None => None,
            Some(place) => {
                if is_in_force(self.macro_at(place)) {
                    return Some(place);
                }
                None
            }
        }
    }

    /// Whether a word is a macro in force that a define has named.
    pub fn is_named(&self, word: &[u8]) -> bool
        ensures { result ≡ is_named word.now self.now }
    {
        match self.place_in(word) {
            None => false,
            Some(place) => is_named_macro(self.macro_at(place)),
        }
    }

    /// Puts a macro in place of that of its name, or as a new one.
    pub fn put(&mut self, alloc: Global, new: Macro) -> Result<(), NoMemory>
        ensures { OnOk result (self.new ≡ with_macro new self.old) }
    {
        match self.place_in(new.name.bytes()) {
            Some(place) => {
                self.set_at(place, new);
                Ok(())
            }
            None => self.add(alloc, new),
        }
    }

    /// Puts a macro in place of that of its name.
    fn set_at(&mut self, place: usize, new: Macro)
        requires within { place < length self.old }
        requires same { new.name ≡ (slice_index_or self.old place new).name }
        ensures { self.new ≡ slice_set self.old place new }
    {
        self.macros[place] = new;
    }

    /// Puts a macro of a new name at the end.
    fn add(&mut self, alloc: Global, new: Macro) -> Result<(), NoMemory>
        requires { place_in new.name self.old ≡ None }
        ensures { OnOk result (self.new ≡ self.old ++ new ∷ []) }
    {
        let word = Vec::from_slice(alloc, new.name.bytes())?;
        let place = self.macros.len();
        self.macros.push(new)?;
        match self.places.insert(word, place) {
            Ok(_) => Ok(()),
            Err(_) => {
                let _ = self.macros.pop();
                Err(NoMemory)
            }
        }
    }

    /// Takes the macro of this name out of force.
    pub fn end(&mut self, word: &[u8])
        ensures { self.new ≡ without_macro word.now self.old }
    {
        match self.place_in(word) {
            None => (),
            Some(place) => self.end_at(place),
        }
    }

    /// Takes the macro at this place out of force.
    fn end_at(&mut self, place: usize)
        requires { place < length self.old }
        ensures { (m : Macro) → self.new ≡ slice_set self.old place (ended (slice_index_or self.old place m)) }
    {
        let found = &mut self.macros[place];
        found.lexemes = None;
    }
}

/// The list of a macro that is in force.
fn list_in(found: &Macro) -> Option<&[Lexeme]>
    ensures { option_copied result ≡ found.now.lexemes }
{
    match &found.lexemes {
        None => None,
        Some(list) => Some(list.items()),
    }
}

/// Whether a macro is in force.
fn is_in_force(found: &Macro) -> bool
    ensures { result ≡ is_some found.now.lexemes }
{
    found.lexemes.is_some()
}

/// Whether a macro is in force, and a define has named it.
fn is_named_macro(found: &Macro) -> bool
    ensures { result ≡ (is_some found.now.lexemes && not found.now.is_first) }
{
    is_in_force(found) && !found.is_first
}
